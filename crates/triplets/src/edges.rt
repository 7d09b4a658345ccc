// What the edges of one tree add: two labels beyond an edge, and a third that leaves there.
ghost use Rattle.std.specs.Prelude.{◌≡◌, ◌≤◌};
ghost use Rattle.shapes.specs.theorems.TripletCounts.{edge_term};
ghost use Rattle.triplets.specs.lemmas.EdgeSums.{SizeCells, edge_sum};

use table_words::{Cell, cell_count};

// An edge with s labels beyond it, and p beyond its parent's edge.
fn edge_term(s: u64, p: u64) -> u64
    requires { (s ≤ p) × (p ≤ 256) }
    ensures { result ≡ edge_term s p }
{
    (s * s - s) * (p - s)
}

// All edges from edge 2 on. The size of each edge is `step` cells after that of the edge before.
pub(crate) fn edge_terms(work: &[Cell], step: usize, parents: &[u16]) -> u64
    requires { SizeCells work.now step parents.now }
    ensures { result ≡ edge_sum work.now step parents.now }
{
    let last = parents.len() - 2;
    let mut total = 0u64;
    for i in 0..last {
        let above = usize::from(parents[i + 2]) - 1;
        total += edge_term(
            cell_count(work[(i + 1) * step]),
            cell_count(work[above * step]),
        );
    }
    total
}
