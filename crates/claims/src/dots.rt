// The dot products of pairs of lines, and their squares. Empty cells are passed over.
ghost use Rattle.std.specs.Prelude.{◌≡◌, ◌+◌, ◌*◌, ◌≤◌, length};
ghost use Rattle.sums.specs.Sum.{sum};
ghost use Rattle.node_pairs.specs.theorems.ClosedForms.{dot_squares, term_squares};
ghost use Rattle.claims.specs.lemmas.Filled.{filled_to};
ghost use Rattle.claims.specs.lemmas.CellLines.{squared};
ghost use Rattle.claims.specs.lemmas.LineDots.{FewLines, AddRoom, added, scaled, line_of, dot_squares_of, term_squares_of};

use super::lines::total_squares;

// The squares of dot products, and of their terms.
#[derive(Clone, Copy)]
pub(crate) struct DotSums {
    pub dots: u64,
    pub terms: u64,
}

// The first `lines` numbers become 0.
fn clear(dots: &mut [u64], lines: usize)
    requires { lines ≤ length dots.old }
    ensures { dots.new ≡ filled_to (λ l. 0) lines dots.old }
{
    dots[..lines].fill(0);
}

// t times each cell of a line is added to its dot product. The squares of what was added.
fn add_line(cells: &[u16], t: u64, at: usize, gap: usize, lines: usize, dots: &mut [u64]) -> u64
    requires { AddRoom cells.now t at gap lines dots.old }
    ensures dots_added { dots.new
        ≡ filled_to (added cells.now dots.old t at gap) lines dots.old }
    ensures squares { (result ≡ sum lines (squared (scaled cells.now t at gap)))
        × (result ≤ lines * 4294967296) }
{
    let mut s: u64 = 0;
    let mut k = at;
    for dot in &mut dots[..lines] {
        let z = t * u64::from(cells[k]);
        *dot += z;
        s += z * z;
        k += gap;
    }
    s
}

// Line i with each line before it.
fn line_dots(
    cells: &[u16],
    gap: usize,
    step: usize,
    i: usize,
    len: usize,
    dots: &mut [u64],
) -> DotSums
    requires { FewLines cells.now gap (i + 1) step len × (i ≤ length dots.old) }
    ensures { (result.dots ≡ dot_squares_of cells.now gap step i len)
        × (result.terms ≡ term_squares_of cells.now gap step i len)
        × (result.dots ≤ 1099511627776) × (result.terms ≤ 281474976710656) }
{
    clear(dots, i);
    let mut terms: u64 = 0;
    let mut k = i * gap;
    let mut at = 0;
    for _ in 0..len {
        let t = u64::from(cells[k]);
        if t != 0 {
            terms += add_line(cells, t, at, gap, i, dots);
        }
        k += step;
        at += step;
    }
    let squares = total_squares(dots, i);
    DotSums {
        dots: squares,
        terms: terms,
    }
}

// All pairs of lines.
pub(crate) fn all_dots(
    cells: &[u16],
    gap: usize,
    lines: usize,
    step: usize,
    len: usize,
    dots: &mut [u64],
) -> DotSums
    requires { FewLines cells.now gap lines step len × (lines ≤ length dots.old) }
    ensures { (result.dots ≡ dot_squares lines len (line_of cells.now gap step))
        × (result.terms ≡ term_squares lines len (line_of cells.now gap step))
        × (result.dots ≤ 281474976710656) × (result.terms ≤ 72057594037927936) }
{
    let mut squares: u64 = 0;
    let mut terms: u64 = 0;
    for i in 0..lines {
        let line = line_dots(cells, gap, step, i, len, dots);
        squares += line.dots;
        terms += line.terms;
    }
    DotSums {
        dots: squares,
        terms: terms,
    }
}
