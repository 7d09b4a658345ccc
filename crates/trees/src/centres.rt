// The centre of three labels.
ghost use Rattle.std.specs.Prelude.{◌≡◌, ◌-◌, ◌<◌, length};
ghost use Rattle.shapes.specs.Centres.{centre_of};
ghost use Rattle.tree_check.specs.Table.{word};
ghost use Rattle.trees.specs.Centre.{centre_answer};
ghost use Rattle.trees.specs.lemmas.RootedArrays.{RootedArrays};
ghost use Rattle.trees.specs.lemmas.CentreOutcomes.{centre_over};
ghost use Rattle.trees.specs.lemmas.Climbing.{Climbable};

use asked_labels::{asked_refusal, node_of};
use table_words::as_word;
use tree_check::{check, refusal_of};

// The number of the refusal with node 0, or 0 with the centre.
// No Result: a refused call gives its number, and zeros (docs/SPECIFICATION.md, 7.2).
#[derive(Clone, Copy)]
pub struct CentreAnswer {
    pub refusal: u16,
    pub node: u16,
}

// The node where the paths between three nodes join: the largest of the three climbs to its parent until two are one.
fn join(parents: &[u16], a: usize, b: usize, c: usize) -> usize
    requires { Climbable parents.now a b c }
    ensures { (result ≡ centre_of (word parents.now) (length parents.now - 1) a b c)
        × (result < length parents.now) }
{
    let mut x = a;
    let mut y = b;
    let mut z = c;
    let node = loop {
        if x == y {
            break x;
        }
        if x == z {
            break x;
        }
        if y == z {
            break y;
        }
        if y < x {
            if z < x {
                x = usize::from(parents[x]);
            } else {
                z = usize::from(parents[z]);
            }
        } else {
            if z < y {
                y = usize::from(parents[y]);
            } else {
                z = usize::from(parents[z]);
            }
        }
    };
    node
}

// The node where the paths between three labels join.
pub fn centre(table: &[u16], a: u16, b: u16, c: u16) -> CentreAnswer
    ensures { result ≡ centre_answer table.now a b c }
{
    let answer = check(table);
    let Ok(tree) = answer else {
        return CentreAnswer {
            refusal: refusal_of(answer),
            node: 0,
        };
    };
    let asked = [a, b, c];
    let number = asked_refusal(&asked, usize::from(tree.tips));
    if number != 0 {
        return CentreAnswer {
            refusal: number,
            node: 0,
        };
    }
    let m = usize::from(tree.nodes);
    CentreAnswer {
        refusal: 0,
        node: centre_node(&table[2..2 + m], &table[2 + m..], a, b, c),
    }
}

// The same over the two parts of a checked table.
pub(crate) fn centre_node(parents: &[u16], labels: &[u16], a: u16, b: u16, c: u16) -> u16
    requires { RootedArrays parents.now labels.now }
    ensures { result ≡ centre_over parents.now labels.now a b c }
{
    let x = node_of(labels, a);
    let y = node_of(labels, b);
    let z = node_of(labels, c);
    as_word(join(parents, x, y, z))
}
