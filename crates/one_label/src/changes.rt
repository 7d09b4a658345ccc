// One label struck or restored: the five counts with the sets of four that hold it taken off or added, and its mark.
ghost use Rattle.std.specs.Prelude.{◌≡◌, not, ◌&&◌, ◌≤◌, eqb};
ghost use Rattle.sums.specs.Bits.{bit};
ghost use Rattle.one_label.specs.FiveAnswers.{counts_of, five_of};
ghost use Rattle.one_label.specs.Changes.{total_of, overdrawn, new_count, change_answer, marks_after};
ghost use Rattle.one_label.specs.lemmas.Changed.{CountFits, AllFit};

use super::answers::{FiveAnswer, FiveCounts, Wish, refused, restores};
use super::checks::check_label;
use super::held::held_counts;
use counting::sets_of_four;
use marks::is_kept;
use tree_check::{Refusal, refusal_of};

// Whether five counts add up to `all`. None is above it if they do, so no sum wraps.
fn adds_up(counts: FiveCounts, all: u64) -> bool
    requires { all ≤ 174792640 }
    ensures { result ≡ eqb (total_of (counts_of counts)) all }
{
    if all < counts.a {
        return false;
    }
    if all < counts.b {
        return false;
    }
    if all < counts.c {
        return false;
    }
    if all < counts.d {
        return false;
    }
    if all < counts.e {
        return false;
    }
    counts.a + counts.b + counts.c + counts.d + counts.e == all
}

// Whether a strike would take more from a case than it holds.
// By a test, as here and below, since the definitions take one (specs/Changes): a closure for each wish is no plainer.
fn overdraws(restore: bool, counts: FiveCounts, held: FiveCounts) -> bool
    ensures { result ≡ (not restore && overdrawn (counts_of counts) (counts_of held)) }
{
    if restore {
        return false;
    }
    if counts.a < held.a {
        return true;
    }
    if counts.b < held.b {
        return true;
    }
    if counts.c < held.c {
        return true;
    }
    if counts.d < held.d {
        return true;
    }
    counts.e < held.e
}

// A count with the sets that hold the label, or without them.
fn new_count(restore: bool, count: u64, held: u64) -> u64
    requires { CountFits restore count held }
    ensures { result ≡ new_count restore count held }
{
    if restore {
        return count + held;
    }
    count - held
}

fn changed(restore: bool, counts: FiveCounts, held: FiveCounts) -> FiveAnswer
    requires { AllFit restore counts held }
    ensures { result ≡ five_of (λ k. new_count restore (counts_of counts k) (counts_of held k)) }
{
    FiveAnswer {
        refusal: 0,
        a: new_count(restore, counts.a, held.a),
        b: new_count(restore, counts.b, held.b),
        c: new_count(restore, counts.c, held.c),
        d: new_count(restore, counts.d, held.d),
        e: new_count(restore, counts.e, held.e),
    }
}

// 1 for a label that is restored, 0 for one that is struck.
fn mark_of(restore: bool) -> u8
    ensures { result ≡ bit restore }
{
    if restore {
        return 1;
    }
    0
}

// The marks and the five counts as they are, and what is wished for one label. The lent marks change at that label alone, and
// only if the number is 0.
pub fn change_mark(
    first: &[u16],
    second: &[u16],
    marks: &mut [u8],
    counts: FiveCounts,
    label: u16,
    wish: Wish,
) -> FiveAnswer
    ensures { (result ≡ change_answer first.now second.now marks.old counts label wish)
        × (marks.new ≡ marks_after first.now second.now marks.old counts label wish) }
{
    let answer = check_label(first, second, marks, label);
    let Ok(sizes) = answer else {
        return refused(refusal_of(answer));
    };
    let restore = restores(wish);
    let x = usize::from(label);
    if is_kept(marks, x) == restore {
        return refused(u16::from(Refusal::AsWished));
    }
    if !adds_up(counts, sets_of_four(sizes.kept)) {
        return refused(u16::from(Refusal::Counts));
    }
    let held = held_counts(
        first,
        second,
        marks,
        sizes.tips,
        sizes.first,
        sizes.second,
        label,
    );
    if overdraws(restore, counts, held) {
        return refused(u16::from(Refusal::Counts));
    }
    marks[x] = mark_of(restore);
    changed(restore, counts, held)
}
