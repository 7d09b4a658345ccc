// Two nodes with three codes into one of them: what they add to the claim sums, from three lines of a block.
ghost use Rattle.std.specs.Prelude.{◌≡◌, ◌+◌, ◌*◌, ◌≤◌};
ghost use Rattle.table_words.specs.Sizes.{tips_most};
ghost use Rattle.node_pairs.specs.theorems.Cells.{pair_s2, pair_s3};
ghost use Rattle.node_pairs.specs.theorems.ThreeRows.{products3, weighed3};
ghost use Rattle.claims.specs.lemmas.LineDots.{FewLines, line_of};
ghost use Rattle.claims.specs.lemmas.CellLines.{line_cell};
ghost use Rattle.claims.specs.lemmas.ThreeLines.{LowLine, TwoSums};

use super::terms::PairTerms;

// A line and another: the sum of the first and of its squares, the products of cells at the same place, and these times
// the sums of the cells.
#[derive(Clone, Copy)]
struct LineSums {
    sum: u64,
    squares: u64,
    beside: u64,
    weighed: u64,
}

// Three lines: the products of cells at the same place, and these times the sums of the cells.
#[derive(Clone, Copy)]
struct Products {
    sum: u64,
    weighed: u64,
}

// The line that begins at `at`, and the one that begins at `to`.
fn two_lines(cells: &[u16], at: usize, to: usize, step: usize, len: usize) -> LineSums
    requires { LowLine cells.now at step len × LowLine cells.now to step len }
    ensures { TwoSums len (line_cell cells.now at step) (line_cell cells.now to step)
        result.sum result.squares result.beside result.weighed }
{
    let mut total: u64 = 0;
    let mut squares: u64 = 0;
    let mut beside: u64 = 0;
    let mut weighed: u64 = 0;
    let mut k = at;
    let mut l = to;
    for _ in 0..len {
        let x = u64::from(cells[k]);
        let y = u64::from(cells[l]);
        let p = x * y;
        total += x;
        squares += x * x;
        beside += p;
        weighed += p * (x + y);
        k += step;
        l += step;
    }
    LineSums {
        sum: total,
        squares: squares,
        beside: beside,
        weighed: weighed,
    }
}

// The lines that begin at 0, at `gap` and at twice `gap`.
fn all_lines(cells: &[u16], gap: usize, step: usize, len: usize) -> Products
    requires { LowLine cells.now 0 step len × LowLine cells.now gap step len
        × LowLine cells.now (2 * gap) step len }
    ensures { (result.sum ≡ products3 len (line_cell cells.now 0 step) (line_cell cells.now gap step)
        (line_cell cells.now (2 * gap) step))
        × (result.weighed ≡ weighed3 len (line_cell cells.now 0 step)
        (line_cell cells.now gap step) (line_cell cells.now (2 * gap) step))
        × (result.sum ≤ 4294967296) × (result.weighed ≤ 3298534883328) }
{
    let mut total: u64 = 0;
    let mut weighed: u64 = 0;
    let mut k = 0;
    for _ in 0..len {
        let x = u64::from(cells[k]);
        let y = u64::from(cells[gap + k]);
        let z = u64::from(cells[2 * gap + k]);
        let p = x * y * z;
        total += p;
        weighed += p * (x + y + z);
        k += step;
    }
    Products {
        sum: total,
        weighed: weighed,
    }
}

// The products of cells at different places of two lines: x and y are the sums of the lines, `beside` the products at
// the same place.
fn apart(x: u64, y: u64, beside: u64) -> u64
    requires { (x ≤ tips_most) × (y ≤ tips_most) × (beside ≤ x * y) }
    ensures { (result + beside ≡ x * y) × (result ≤ 65536) }
{
    x * y - beside
}

// Three products added up.
fn three_products(a: u64, b: u64, c: u64, x: u64, y: u64, z: u64) -> u64
    requires sums_low { (a ≤ 8589934592) × (b ≤ 8589934592) × (c ≤ 8589934592) }
    requires cells_low { (x ≤ 131072) × (y ≤ 131072) × (z ≤ 131072) }
    ensures { (result ≡ a * x + b * y + c * z) × (result ≤ 3377699720527872) }
{
    a * x + b * y + c * z
}

// What two nodes add, from three lines that begin `gap` apart.
pub(crate) fn three_lines(cells: &[u16], gap: usize, step: usize, len: usize) -> PairTerms
    requires { FewLines cells.now gap 3 step len }
    ensures { (result.s2 ≡ pair_s2 3 len (line_of cells.now gap step))
        × (result.s3 ≡ pair_s3 3 len (line_of cells.now gap step)) }
{
    let x = two_lines(cells, 0, gap, step, len);
    let y = two_lines(cells, gap, 2 * gap, step, len);
    let z = two_lines(cells, 2 * gap, 0, step, len);
    let all = all_lines(cells, gap, step, len);
    let u = apart(y.sum, z.sum, y.beside);
    let v = apart(x.sum, z.sum, z.beside);
    let w = apart(x.sum, y.sum, x.beside);
    let squares = three_products(x.squares, y.squares, z.squares, u, v, w);
    let sums = three_products(x.sum, y.sum, z.sum, u, v, w);
    let beside = three_products(x.beside, z.beside, y.beside, z.sum, y.sum, x.sum);
    let weighed = three_products(x.weighed, z.weighed, y.weighed, z.sum, y.sum, x.sum);
    let hooks = three_products(x.beside, z.beside, y.beside, u + v, u + w, v + w);
    PairTerms {
        s2: squares + 2 * (beside + all.weighed) - sums - weighed - 6 * all.sum,
        s3: hooks + 4 * all.weighed - weighed - 2 * (all.sum * (x.sum + y.sum + z.sum)),
    }
}
