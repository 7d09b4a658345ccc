// The part of a walk that belongs to an edge, by position alone.
ghost use Rattle.std.specs.Prelude.{◌≡◌, ◌<◌, ◌||◌, length, ◌==◌, nat_le};
ghost use Rattle.tree_check.specs.lemmas.TableParts.{table_of};
ghost use Rattle.tree_check.specs.Refusals.{refusal};
ghost use Rattle.walks.specs.WalkOrders.{edge_order};
ghost use Rattle.walks.specs.Walk.{place_beyond, part_beyond, words_on};
ghost use Rattle.walks.specs.lemmas.TreeArrays.{TreeArrays};
ghost use Rattle.walks.specs.lemmas.Positions.{placed};

use super::sizes::{ends, sizes};
use table_words::{NODES, as_word};
use tree_check::{Refusal, check, refusal_of};

// Whether a table of that many nodes has no such edge.
fn no_edge(edge: u16, nodes: u16) -> bool
    ensures { result ≡ (edge == 0 || nat_le nodes edge) }
{
    if edge == 0 {
        return true;
    }
    nodes <= edge
}

// The number of the refusal with zeros, or 0 with the first cell of the labels beyond an edge and how many they are.
// No Result: a refused call gives its number, and zeros (docs/SPECIFICATION.md, 7.2).
#[derive(Clone, Copy)]
pub struct PartBeyond {
    pub refusal: u16,
    pub start: u16,
    pub count: u16,
}

// Where the labels beyond node i stand in a walk, from its size and its end.
fn part_of(parents: &[u16], labels: &[u16], n: usize, i: usize) -> PartBeyond
    requires { TreeArrays n parents.now labels.now × (i < length parents.now) }
    ensures { result ≡ placed (table_of n parents.now labels.now) i }
{
    let mut size = [0usize; NODES];
    sizes(parents, labels, n, &mut size);
    let mut end = [0usize; NODES];
    ends(parents, labels, n, &size, &mut end);
    let count = size[i];
    let from = end[i] - count;
    PartBeyond {
        refusal: 0,
        start: as_word(from),
        count: as_word(count),
    }
}

// Where the labels beyond an edge stand in a walk of so many cells, by position alone.
pub fn part_beyond(table: &[u16], edge: u16, cells: usize) -> PartBeyond
    ensures { result ≡ place_beyond table.now edge cells }
{
    let answer = check(table);
    let Ok(tree) = answer else {
        return PartBeyond {
            refusal: refusal_of(answer),
            start: 0,
            count: 0,
        };
    };
    if no_edge(edge, tree.nodes) {
        return PartBeyond {
            refusal: u16::from(Refusal::NoEdge),
            start: 0,
            count: 0,
        };
    }
    let n = usize::from(tree.tips);
    if cells < n {
        return PartBeyond {
            refusal: u16::from(Refusal::Short),
            start: 0,
            count: 0,
        };
    }
    let m = usize::from(tree.nodes);
    part_of(&table[2..2 + m], &table[2 + m..], n, usize::from(edge))
}

// The number of a refusal of `beyond` on the same input, or 0.
// The answer is the number itself, as docs/LIBRARY.md promises.
pub fn beyond_refusal(table: &[u16], edge: u16, walk: &[u16]) -> u16
    ensures { result ≡ refusal (edge_order table.now edge (length walk.now)) }
{
    let part = part_beyond(table, edge, walk.len());
    part.refusal
}

// The labels beyond an edge, as the part of the caller's walk where they stand; an empty part on refusal.
pub fn beyond<'a>(table: &[u16], edge: u16, walk: &'a [u16]) -> &'a [u16]
    ensures { (result.now ≡ part_beyond table.now edge walk.now)
        × (result.ref_ptr ≡ words_on (place_beyond table.now edge (length walk.now)).start walk.entry.ref_ptr) }
{
    let part = part_beyond(table, edge, walk.len());
    let from = usize::from(part.start);
    let to = from + usize::from(part.count);
    &walk[from..to]
}
