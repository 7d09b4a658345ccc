// What one cell of a block gives to the claim sums, from plain numbers.
ghost use Rattle.std.specs.Prelude.{◌≡◌, ◌+◌, ◌*◌, ◌-◌, ◌≤◌};
ghost use Rattle.table_words.specs.Sizes.{tips_most};
ghost use Rattle.shapes.specs.Claims.{choose2};
ghost use Rattle.claims.specs.lemmas.CellTerms.{TermRoom, CellGives};

// What cells give: to twice S2, to S3, and what is too much in that.
#[derive(Clone, Copy)]
pub(crate) struct CellSums {
    pub pairs: u64,
    pub plus: u64,
    pub minus: u64,
}

// Two labels of the cell t, times two cells elsewhere in different rows and columns: x and y are the rest of its row
// and of its column, `rest` the cells in neither, and `base` what the squares have too much.
fn pairs_term(t: u64, rest: u64, x: u64, y: u64, more: u64, base: u64) -> u64
    requires sizes { (1 ≤ t) × (t ≤ tips_most) × (rest ≤ tips_most) × (x ≤ tips_most) × (y ≤ tips_most) × (more ≤ 327680) }
    requires base_bound { base ≤ rest * rest + t * t + x * x + y * y + more }
    ensures { (result ≡ choose2 t * (rest * rest + t * t + x * x + y * y + more - base))
        × (result ≤ 68719476736) }
{
    t * (t - 1) / 2 * (rest * rest + t * t + x * x + y * y + more - base)
}

// The hooks at the cell t, ..
fn plus_term(t: u64, rest: u64, x: u64, y: u64) -> u64
    requires { (t ≤ tips_most) × (rest ≤ tips_most) × (x ≤ tips_most) × (y ≤ tips_most) }
    ensures { (result ≡ t * (rest * (y * x) + t * (x * x + y * y))) × (result ≤ 68719476736) }
{
    t * (rest * (y * x) + t * (x * x + y * y))
}

// .. and what is too much in that.
fn minus_term(t: u64, x: u64, y: u64, down: u64, along: u64) -> u64
    requires { (t ≤ tips_most) × (x ≤ tips_most) × (y ≤ tips_most) × (down ≤ 65536) × (along ≤ 65536) }
    ensures { (result ≡ t * (x * down + y * along)) × (result ≤ 68719476736) }
{
    t * (x * down + y * along)
}

// What a cell t gives, from the sums of its row, its column and the whole block.
pub(crate) fn cell_terms(
    t: u64,
    row: u64,
    column: u64,
    down: u64,
    along: u64,
    whole: u64,
    squares: u64,
    base: u64,
) -> CellSums
    requires { TermRoom t row column down along whole squares base }
    ensures { CellGives t (row - t) (column - t) (whole + t - row - column) down along squares base
        result.pairs result.plus result.minus }
{
    let x = row - t;
    let y = column - t;
    let rest = whole + t - row - column;
    let pairs = pairs_term(t, rest, x, y, squares + 2 * (down + along), base);
    let plus = plus_term(t, rest, x, y);
    let minus = minus_term(t, x, y, down, along);
    CellSums {
        pairs: pairs,
        plus: plus,
        minus: minus,
    }
}
