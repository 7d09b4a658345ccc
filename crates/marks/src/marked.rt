// The marks of n labels: checked, the kept ones counted, and one label asked for.
ghost use Rattle.std.specs.Prelude.{Bool, ◌≡◌, ℕ, ◌<◌, ltb, length};
ghost use Rattle.sums.specs.Counts.{count};
ghost use Rattle.tree_check.specs.Table.{word};
ghost use Rattle.marks.specs.Marks.{is_kept, kept_of, checked_marks};

use tree_check::Refusal;

// Whether the label x is kept: its mark is 1. A label without a mark is not.
pub fn is_kept(marks: &[u8], x: usize) -> bool
    ensures { result ≡ is_kept marks.now x }
{
    x < marks.len() && marks[x] == 1
}

// How many marks pass a test. Each is looked at, so that several are tested at a time; a chain over `filter` tests one.
fn count_of<F: Fn(u8) -> bool>(marks: &[u8], test: F) -> u16
    requires few { length marks.now < 65536 }
    requires callable { F.IsAlwaysCallable test }
    ensures { (q : ℕ → Bool) → ((k : ℕ) (b : Bool) → F.post test k b → b ≡ q k)
        → result ≡ count (length marks.now) (λ x. q (word marks.now x)) }
{
    let mut total = 0u16;
    for mark in marks {
        if test(*mark) {
            total += 1;
        }
    }
    total
}

// How many marks are above 1.
fn wrong_marks(marks: &[u8]) -> u16
    requires { length marks.now < 65536 }
    ensures { result ≡ count (length marks.now) (λ x. ltb 1 (word marks.now x)) }
{
    count_of(marks, |mark| 1 < mark)
}

// How many marks are 1.
fn kept_marks(marks: &[u8]) -> u16
    requires { length marks.now < 65536 }
    ensures { result ≡ kept_of marks.now (length marks.now) }
{
    count_of(marks, |mark| mark == 1)
}

// How many of n labels are kept; refused where there are not exactly n marks, or a mark is above 1.
pub fn check_marks(marks: &[u8], n: u16) -> Result<u16, Refusal>
    ensures { result ≡ checked_marks marks.now n }
{
    if marks.len() != usize::from(n) {
        return Err(Refusal::Marks);
    }
    if wrong_marks(marks) != 0 {
        return Err(Refusal::Marks);
    }
    Ok(kept_marks(marks))
}
