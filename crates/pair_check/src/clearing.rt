// The lent work cells cleared.
ghost use Rattle.std.specs.Prelude.{◌≡◌};
ghost use Rattle.pair_check.specs.Clearing.{zeroed};

use table_words::Cell;

// The first `count` cells become 0, if there are so many; later cells stay.
pub fn clear(work: &mut [Cell], count: usize)
    ensures { work.new ≡ zeroed count work.old }
{
    if work.len() < count {
        return;
    }
    work[..count].fill(0);
}
