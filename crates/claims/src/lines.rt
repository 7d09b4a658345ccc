// Sums along rows and columns of a block: a line of cells is told by its start, its step and its length.
ghost use Rattle.std.specs.Prelude.{◌≡◌, ℕ, ◌+◌, ◌*◌, ◌<◌, ◌≤◌, length};
ghost use Rattle.sums.specs.Sum.{sum};
ghost use Rattle.tree_check.specs.Table.{word};
ghost use Rattle.claims.specs.lemmas.Filled.{filled_to};
ghost use Rattle.claims.specs.lemmas.CellLines.{Line, Totals, LowNumbers};
ghost use Rattle.claims.specs.lemmas.CellLines.{line_cell, rest_cell, squared};

// What `term` gives at each place before `len`, added up.
fn sum_of<F: Fn(usize) -> u64>(len: usize, term: F) -> u64
    requires few { len ≤ 65536 }
    requires callable { (a : ℕ) → a < len → F.pre term a }
    requires low { (a n : ℕ) → a < len → F.post term a n → n ≤ 4294967296 }
    ensures { (f : ℕ → ℕ) → ((a n : ℕ) → a < len → F.post term a n → n ≡ f a)
        → result ≡ sum len f }
{
    let mut s: u64 = 0;
    for a in 0..len {
        s += term(a);
    }
    s
}

// Cell a of a line.
fn line_cell(cells: &[u16], at: usize, step: usize, a: usize) -> u64
    requires { at + a * step < length cells.now }
    ensures { (result ≡ line_cell cells.now at step a) × (result ≤ 65535) }
{
    u64::from(cells[at + a * step])
}

// The sum of a line.
pub(crate) fn line_sum(cells: &[u16], at: usize, step: usize, len: usize) -> u64
    requires { Line (length cells.now) at step len }
    ensures { result ≡ sum len (line_cell cells.now at step) }
{
    sum_of(len, |a| line_cell(cells, at, step, a))
}

// The squares of a line.
pub(crate) fn line_squares(cells: &[u16], at: usize, step: usize, len: usize) -> u64
    requires { Line (length cells.now) at step len }
    ensures { result ≡ sum len (squared (line_cell cells.now at step)) }
{
    sum_of(len, |a| {
        let t = line_cell(cells, at, step, a);
        t * t
    })
}

// Each cell of a line times the rest of its total.
pub(crate) fn line_rest(cells: &[u16], at: usize, step: usize, len: usize, totals: &[u64]) -> u64
    requires line { Line (length cells.now) at step len }
    requires totals { Totals cells.now totals.now at step len }
    ensures { result ≡ sum len (rest_cell cells.now totals.now at step) }
{
    sum_of(len, |a| {
        let t = line_cell(cells, at, step, a);
        t * (totals[a] - t)
    })
}

// The sum of the first numbers.
pub(crate) fn total(xs: &[u64], len: usize) -> u64
    requires { LowNumbers xs.now len }
    ensures { result ≡ sum len (word xs.now) }
{
    sum_of(len, |a| xs[a])
}

// The squares of the first numbers.
pub(crate) fn total_squares(xs: &[u64], len: usize) -> u64
    requires { LowNumbers xs.now len }
    ensures { result ≡ sum len (squared (word xs.now)) }
{
    sum_of(len, |a| xs[a] * xs[a])
}

// Each of the first `lines` numbers becomes what `of` gives for its line. The lines begin `gap` apart.
pub(crate) fn fill_lines<F: Fn(usize) -> u64>(gap: usize, lines: usize, of: F, out: &mut [u64])
    requires room { (lines ≤ length out.old) × (lines ≤ 65536) × (gap ≤ 65536) }
    requires callable { (i : ℕ) → i < lines → F.pre of (i * gap) }
    ensures { (g : ℕ → ℕ) → ((i n : ℕ) → i < lines → F.post of (i * gap) n → n ≡ g i)
        → out.new ≡ filled_to g lines out.old }
{
    let mut at = 0;
    for cell in &mut out[..lines] {
        *cell = of(at);
        at += gap;
    }
}
