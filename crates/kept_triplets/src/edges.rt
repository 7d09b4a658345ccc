// The edges of one tree that add to the sums, listed, and what they add by themselves.
ghost use Rattle.std.specs.Prelude.{◌≡◌, ◌-◌, length};
ghost use Rattle.table_words.specs.Sizes.{node_room};
ghost use Rattle.sums.specs.Sum.{sum};
ghost use Rattle.kept_triplets.specs.lemmas.Edges.{adds as edges_adds, adds_at, ListedEdges, NodeSums, ListedSums, edge_listed};

use super::terms::{cell, edge_term};
use table_words::{Cell, NODES, TIPS};

// Whether an edge adds anything, with s kept labels beyond it and p beyond its parent's edge: it has two, and fewer than the
// edge above it.
fn adds(s: u64, p: u64) -> bool
    ensures { result ≡ edges_adds s p }
{
    if s < 2 {
        return false;
    }
    s < p
}

// The nodes from node 2 on whose edges add anything, of m nodes, from the totals of all places. How many there are.
pub(crate) fn list_edges(
    all: &[u64; TIPS],
    begin: &[Cell; NODES],
    end: &[Cell; NODES],
    table: &[u16],
    m: usize,
    listed: &mut [usize; NODES],
) -> usize
    requires { NodeSums all.now begin.now end.now table.now m × (length listed.old ≡ node_room) }
    ensures { ListedEdges (m - 2) result (adds_at all.now begin.now end.now table.now)
        listed.new }
{
    let last = m - 2;
    let mut count = 0;
    for i in 0..last {
        let j = i + 2;
        let p = usize::from(table[2 + j]);
        listed[count] = j;
        if adds(cell(all, begin[j], end[j]), cell(all, begin[p], end[p])) {
            count += 1;
        }
    }
    count
}

// What the listed edges add by themselves.
pub(crate) fn edge_terms(
    all: &[u64; TIPS],
    begin: &[Cell; NODES],
    end: &[Cell; NODES],
    table: &[u16],
    listed: &[usize; NODES],
    count: usize,
) -> u64
    requires { ListedSums all.now begin.now end.now table.now listed.now count }
    ensures { result ≡ sum count (edge_listed all.now begin.now end.now
        table.now listed.now) }
{
    let mut total = 0u64;
    for &j in &listed[..count] {
        let p = usize::from(table[2 + j]);
        total += edge_term(cell(all, begin[j], end[j]), cell(all, begin[p], end[p]));
    }
    total
}
