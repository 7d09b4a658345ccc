// The topology of four labels.
ghost use Rattle.std.specs.Prelude.{◌≡◌, ◌≤◌, min, max};
ghost use Rattle.table_words.specs.Sizes.{node_room};
ghost use Rattle.trees.specs.Topology.{partner, topology_answer, Told};
ghost use Rattle.trees.specs.lemmas.RootedArrays.{RootedArrays};
ghost use Rattle.trees.specs.lemmas.Sides.{pairing, SidesAre, Shown, topology_shown};

use asked_labels::{asked_refusal, node_of};
use table_words::NODES;
use tree_check::{check, refusal_of};
use walks::add_up;

// A butterfly names the partner of the smallest label; a star names nobody.
// An enum of its own: its form is asked for (docs/SPECIFICATION.md, 12).
#[derive(Clone, Copy)]
pub enum Topology {
    Butterfly(u16),
    Star,
}

// The number of the refusal with a star, or 0 with the topology.
// No Result: a refused call gives its number, and zeros (docs/SPECIFICATION.md, 7.2).
#[derive(Clone, Copy)]
pub struct TopologyAnswer {
    pub refusal: u16,
    pub topology: Topology,
}

// The pairing that an edge shows of four labels, from the number that says which of them lie beyond it:
// 1 for ab|cd, 2 for ac|bd, 3 for ad|bc, 0 for none.
pub(crate) fn pairing_of(sides: usize) -> usize
    ensures { result ≡ pairing sides }
{
    if sides == 3 {
        return 1;
    }
    if sides == 12 {
        return 1;
    }
    if sides == 5 {
        return 2;
    }
    if sides == 10 {
        return 2;
    }
    if sides == 6 {
        return 3;
    }
    if sides == 9 {
        return 3;
    }
    0
}

// The partner of the smallest label in ab|cd.
fn partner_of(a: u16, b: u16, c: u16, d: u16) -> u16
    ensures { result ≡ partner a b c d }
{
    if smaller(a, b) < smaller(c, d) {
        return larger(a, b);
    }
    larger(c, d)
}

fn smaller(a: u16, b: u16) -> u16
    ensures { result ≡ min a b }
{
    if a < b {
        return a;
    }
    b
}

fn larger(a: u16, b: u16) -> u16
    ensures { result ≡ max a b }
{
    if a < b {
        return b;
    }
    a
}

// Which of the four labels lie beyond each edge: 1 for a, 2 for b, 4 for c, 8 for d, added up the tree.
pub(crate) fn sides_of(
    parents: &[u16],
    labels: &[u16],
    a: u16,
    b: u16,
    c: u16,
    d: u16,
) -> [usize; NODES]
    requires { RootedArrays parents.now labels.now }
    ensures { SidesAre parents.now labels.now a b c d result }
{
    let mut cells = [0usize; NODES];
    let x = node_of(labels, a);
    let y = node_of(labels, b);
    let z = node_of(labels, c);
    let w = node_of(labels, d);
    cells[x] = cells[x] + 1;
    cells[y] = cells[y] + 2;
    cells[z] = cells[z] + 4;
    cells[w] = cells[w] + 8;
    add_up(parents, &mut cells);
    cells
}

// The pairing that the first edge shows which shows one; 0 where none does. Edges 1 to m - 1 are looked at.
fn shown_pairing(sides: &[usize; NODES], m: usize) -> usize
    requires { m ≤ node_room }
    ensures { Shown sides.now m result }
{
    for i in 1..m {
        let k = pairing_of(sides[i]);
        if k != 0 {
            return k;
        }
    }
    0
}

// A pairing's number as a topology.
pub(crate) fn named_pairing(k: usize, a: u16, b: u16, c: u16, d: u16) -> Topology
    ensures { result ≡ topology_shown k a b c d }
{
    if k == 1 {
        return Topology::Butterfly(partner_of(a, b, c, d));
    }
    if k == 2 {
        return Topology::Butterfly(partner_of(a, c, b, d));
    }
    if k == 3 {
        return Topology::Butterfly(partner_of(a, d, b, c));
    }
    Topology::Star
}

// The topology of four labels, by looking at the edges one by one.
pub fn topology_of(table: &[u16], a: u16, b: u16, c: u16, d: u16) -> TopologyAnswer
    ensures { (result ≡ topology_answer table.now a b c d) × Told table.now a b c d result }
{
    let answer = check(table);
    let Ok(tree) = answer else {
        return TopologyAnswer {
            refusal: refusal_of(answer),
            topology: Topology::Star,
        };
    };
    let asked = [a, b, c, d];
    let number = asked_refusal(&asked, usize::from(tree.tips));
    if number != 0 {
        return TopologyAnswer {
            refusal: number,
            topology: Topology::Star,
        };
    }
    let m = usize::from(tree.nodes);
    let sides = sides_of(&table[2..2 + m], &table[2 + m..], a, b, c, d);
    let k = shown_pairing(&sides, m);
    TopologyAnswer {
        refusal: 0,
        topology: named_pairing(k, a, b, c, d),
    }
}
