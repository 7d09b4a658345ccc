// Two nodes with three codes into each: what they add to the claim sums, from their nine crossings.
ghost use Rattle.std.specs.Prelude.{◌≡◌, ◌≤◌};
ghost use Rattle.node_pairs.specs.theorems.Cells.{pair_s2, pair_s3};
ghost use Rattle.claims.specs.lemmas.NineCells.{Nine, product, weighed_product, sum_three, three_rows};

use super::terms::PairTerms;

// Three diagonals, each of three cells in different rows and columns: the sum of their products, and that of their
// products times their sums.
#[derive(Clone, Copy)]
struct Diagonals {
    products: u64,
    weighed: u64,
}

// The three diagonals p0 q0 r0, p1 q1 r1 and p2 q2 r2.
fn three_diagonals(
    p0: u64,
    q0: u64,
    r0: u64,
    p1: u64,
    q1: u64,
    r1: u64,
    p2: u64,
    q2: u64,
    r2: u64,
) -> Diagonals
    requires { Nine p0 q0 r0 p1 q1 r1 p2 q2 r2 }
    ensures { (result.products ≡ sum_three product p0 q0 r0 p1 q1 r1 p2 q2 r2)
        × (result.weighed ≡ sum_three weighed_product p0 q0 r0 p1 q1 r1 p2 q2 r2)
        × (result.products ≤ 50331648) × (result.weighed ≤ 38654705664) }
{
    let a = p0 * q0 * r0;
    let b = p1 * q1 * r1;
    let c = p2 * q2 * r2;
    Diagonals {
        products: a + b + c,
        weighed: a * (p0 + q0 + r0) + b * (p1 + q1 + r1) + c * (p2 + q2 + r2),
    }
}

// For S2 a diagonal gives its product times its sum less three, for S3 its product times the sum of the cells off it.
pub(crate) fn nine_terms(
    x0: u64,
    x1: u64,
    x2: u64,
    y0: u64,
    y1: u64,
    y2: u64,
    z0: u64,
    z1: u64,
    z2: u64,
) -> PairTerms
    requires { Nine x0 x1 x2 y0 y1 y2 z0 z1 z2 }
    ensures { (result.s2 ≡ pair_s2 3 3 (three_rows x0 x1 x2 y0 y1 y2 z0 z1 z2))
        × (result.s3 ≡ pair_s3 3 3 (three_rows x0 x1 x2 y0 y1 y2 z0 z1 z2)) }
{
    let all = x0 + x1 + x2 + y0 + y1 + y2 + z0 + z1 + z2;
    let some = three_diagonals(x0, y1, z2, x1, y2, z0, x2, y0, z1);
    let others = three_diagonals(x0, y2, z1, x1, y0, z2, x2, y1, z0);
    let products = some.products + others.products;
    let weighed = some.weighed + others.weighed;
    PairTerms {
        s2: weighed - 3 * products,
        s3: all * products - weighed,
    }
}
