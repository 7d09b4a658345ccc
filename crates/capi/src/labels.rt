// The exported functions for one label. A slice is a pointer to its elements, then their number.
ghost use Rattle.std.specs.Prelude.{◌≡◌, true, [], ◌∷◌, ◌++◌, length};
ghost use Rattle.tree_check.specs.Refusals.{refusal};
ghost use Rattle.rerooting.specs.Rerooted.{reroot_order, after_reroot};
ghost use Rattle.pair_check.specs.PairOrder.{tables_order};
ghost use Rattle.one_label.specs.FiveAnswers.{holding_answer};
ghost use Rattle.capi.specs.PlainLabels.{plain_five, five, wish_of, mark_answer, marks_after_mark};

use super::answers::FiveCountsAnswer;
use one_label::{FiveCounts, Wish, change_mark, holding_counts};
use pair_check::check_pair;
use rerooting::reroot;

// The number, and the table re-rooted at the tip with this label in the lent words.
#[unsafe(no_mangle)]
pub extern "C" fn leskwyn_reroot(table: &[u16], label: u16, out: &mut [u16]) -> u16
    ensures { (result ≡ refusal (reroot_order table.now label (length out.old)))
        × (out.new ≡ after_reroot table.now label out.old) }
{
    reroot(table, label, out)
}

// The sets of four that hold a label and three other kept ones.
#[unsafe(no_mangle)]
pub extern "C" fn leskwyn_holding(
    first: &[u16],
    second: &[u16],
    marks: &[u8],
    label: u16,
) -> FiveCountsAnswer
    ensures { result ≡ plain_five (holding_answer first.now second.now marks.now label) }
{
    FiveCountsAnswer::from(holding_counts(first, second, marks, label))
}

// 0 strikes, anything else restores.
fn wish_of(mark: u16) -> Wish
    ensures { result ≡ wish_of mark }
{
    if mark == 0 {
        return Wish::Strike;
    }
    Wish::Restore
}

// The number of two tables, and 32 if they have none.
// A number, as the C interface has it.
fn tables_or_32(first: &[u16], second: &[u16]) -> u16
    ensures { result ≡ refusal (tables_order first.now second.now ++ ((32, true) ∷ [])) }
{
    match check_pair(first, second) {
        Ok(_) => 32,
        Err(refusal) => u16::from(refusal),
    }
}

// The counts once the label has this mark, and the mark among the lent ones. A mark above 1 is refused as marks are.
#[unsafe(no_mangle)]
pub extern "C" fn leskwyn_change_mark(
    first: &[u16],
    second: &[u16],
    marks: &mut [u8],
    a: u64,
    b: u64,
    c: u64,
    d: u64,
    e: u64,
    label: u16,
    mark: u16,
) -> FiveCountsAnswer
    ensures { (result
        ≡ plain_five (mark_answer first.now second.now marks.old (five a b c d e) label mark))
        × (marks.new
        ≡ marks_after_mark first.now second.now marks.old (five a b c d e) label mark) }
{
    if 1 < mark {
        return FiveCountsAnswer {
            refusal: tables_or_32(first, second),
            a: 0,
            b: 0,
            c: 0,
            d: 0,
            e: 0,
        };
    }
    let counts = FiveCounts { a, b, c, d, e };
    FiveCountsAnswer::from(change_mark(first, second, marks, counts, label, wish_of(mark)))
}
