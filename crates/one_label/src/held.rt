// The sets of four that hold one label and three other kept ones, counted: the triplets of the two re-rooted tables.
ghost use Rattle.std.specs.Prelude.{◌≡◌, ◌≤◌, ◌<◌, length};
ghost use Rattle.table_words.specs.Sizes.{tips_most};
ghost use Rattle.marks.specs.Marks.{AreMarks};
ghost use Rattle.tree_check.specs.lemmas.Sized.{Sized};
ghost use Rattle.one_label.specs.lemmas.HeldCounts.{MarksExchanged, HeldAre};

use super::answers::FiveCounts;
use kept_triplets::kept_triplets;
use rerooting::reroot;
use table_words::{TABLE_WORDS, TIPS};

// The marks with those of 0 and x exchanged.
fn exchanged_marks(marks: &[u8], x: usize) -> [u8; TIPS]
    requires { (length marks.now ≤ tips_most) × (x < length marks.now) }
    ensures { MarksExchanged marks.now x result }
{
    let mut out = [0u8; TIPS];
    out[..marks.len()].copy_from_slice(marks);
    out[0] = marks[x];
    out[x] = marks[0];
    out
}

// The counts of two tables of n labels, with m and k nodes, for the label x.
pub(crate) fn held_counts(
    first: &[u16],
    second: &[u16],
    marks: &[u8],
    n: usize,
    m: usize,
    k: usize,
    x: u16,
) -> FiveCounts
    requires { Sized first.now n m × Sized second.now n k × AreMarks marks.now n × (x < n) }
    ensures { HeldAre first.now second.now marks.now x result }
{
    let mut one = [0u16; TABLE_WORDS];
    reroot(first, x, &mut one);
    let mut two = [0u16; TABLE_WORDS];
    reroot(second, x, &mut two);
    let turned = exchanged_marks(marks, usize::from(x));
    let table = kept_triplets(&one[..2 + 2 * m], &two[..2 + 2 * k], &turned[..n]);
    FiveCounts {
        a: table.a,
        b: table.b,
        c: table.c,
        d: table.d,
        e: table.e,
    }
}
