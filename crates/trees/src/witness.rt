// How a tree parts four labels: by an edge with two of them on each side, or not at all, and then their paths meet at a node.
ghost use Rattle.std.specs.Prelude.{◌≡◌, ◌≤◌, ◌<◌};
ghost use Rattle.table_words.specs.Sizes.{node_room};
ghost use Rattle.trees.specs.Witness.{witness_answer, WitnessTold};
ghost use Rattle.trees.specs.lemmas.RootedArrays.{RootedArrays};
ghost use Rattle.trees.specs.lemmas.CentreOutcomes.{centre_over};
ghost use Rattle.trees.specs.lemmas.Seen.{ShownEdge, witness_at, Seen};

use super::centres::centre_node;
use super::quartet::{Topology, named_pairing, pairing_of, sides_of};
use asked_labels::asked_refusal;
use table_words::{NODES, as_word};
use tree_check::{check, refusal_of};

// The lowest-numbered edge that parts four labels two and two, or the node where all their paths meet.
// An enum of its own: its form is asked for (docs/SPECIFICATION.md, 12).
#[derive(Clone, Copy)]
pub enum Witness {
    Edge(u16),
    Meet(u16),
}

// The number of the refusal with a star and meeting node 0, or 0 with the topology and its witness.
// No Result: a refused call gives its number, and zeros (docs/SPECIFICATION.md, 7.2).
#[derive(Clone, Copy)]
pub struct WitnessAnswer {
    pub refusal: u16,
    pub topology: Topology,
    pub witness: Witness,
}

// The first edge that shows a pairing; 0 where none does. Edges 1 to m - 1 are looked at.
fn shown_edge(sides: &[usize; NODES], m: usize) -> usize
    requires { m ≤ node_room }
    ensures { ShownEdge sides.now m result }
{
    for i in 1..m {
        if pairing_of(sides[i]) != 0 {
            return i;
        }
    }
    0
}

// The witness, by the first edge that shows a pairing: where none does, the centre of three of the labels.
fn witness_at(i: usize, parents: &[u16], labels: &[u16], a: u16, b: u16, c: u16) -> Witness
    requires { RootedArrays parents.now labels.now × (i < 65536) }
    ensures { result ≡ witness_at i (centre_over parents.now labels.now a b c) }
{
    if i == 0 {
        return Witness::Meet(centre_node(parents, labels, a, b, c));
    }
    Witness::Edge(as_word(i))
}

// The answer over the two parts of a checked table.
fn seen(parents: &[u16], labels: &[u16], a: u16, b: u16, c: u16, d: u16) -> WitnessAnswer
    requires { RootedArrays parents.now labels.now }
    ensures { Seen parents.now labels.now a b c d result }
{
    let sides = sides_of(parents, labels, a, b, c, d);
    let i = shown_edge(&sides, parents.len());
    let k = pairing_of(sides[i]);
    WitnessAnswer {
        refusal: 0,
        topology: named_pairing(k, a, b, c, d),
        witness: witness_at(i, parents, labels, a, b, c),
    }
}

// The topology of four labels with its witness: the first edge that parts them two and two, or the node where they meet.
pub fn witness_of(table: &[u16], a: u16, b: u16, c: u16, d: u16) -> WitnessAnswer
    ensures { (result ≡ witness_answer table.now a b c d) × WitnessTold table.now a b c d result }
{
    let answer = check(table);
    let Ok(tree) = answer else {
        return WitnessAnswer {
            refusal: refusal_of(answer),
            topology: Topology::Star,
            witness: Witness::Meet(0),
        };
    };
    let asked = [a, b, c, d];
    let number = asked_refusal(&asked, usize::from(tree.tips));
    if number != 0 {
        return WitnessAnswer {
            refusal: number,
            topology: Topology::Star,
            witness: Witness::Meet(0),
        };
    }
    let m = usize::from(tree.nodes);
    seen(&table[2..2 + m], &table[2 + m..], a, b, c, d)
}
