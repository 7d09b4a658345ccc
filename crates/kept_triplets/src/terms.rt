// What edges and pairs of edges add.
ghost use Rattle.std.specs.Prelude.{◌≡◌, ◌*◌, ◌-◌, ◌≤◌};
ghost use Rattle.tree_check.specs.Table.{word};
ghost use Rattle.shapes.specs.theorems.TripletCounts.{edge_term};

use table_words::{Cell, TIPS, cell_index};

// An edge with s labels beyond it, and p beyond its parent's edge.
pub(crate) fn edge_term(s: u64, p: u64) -> u64
    requires { (s ≤ p) × (p ≤ 256) }
    ensures { result ≡ edge_term s p }
{
    (s * s - s) * (p - s)
}

// Two of i labels beyond both edges, and one of z that leave at both.
pub(crate) fn alike_term(i: u64, z: u64) -> u64
    requires { (i ≤ 256) × (z ≤ 256) }
    ensures { result ≡ i * (i - 1) * z }
{
    (i * i - i) * z
}

// One of i labels beyond both edges, one of x that leave at the second alone, one of y that leave at the first alone.
pub(crate) fn apart_term(i: u64, x: u64, y: u64) -> u64
    requires { (i ≤ 256) × (x ≤ 256) × (y ≤ 256) }
    ensures { result ≡ i * (x * y) }
{
    i * (x * y)
}

// How many of the places of a span were counted.
pub(crate) fn cell(sums: &[u64; TIPS], begin: Cell, end: Cell) -> u64
    requires { word sums.now begin ≤ word sums.now end }
    ensures { result ≡ word sums.now end - word sums.now begin }
{
    sums[cell_index(end)] - sums[cell_index(begin)]
}
