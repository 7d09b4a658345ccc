// The marks that levels are for a viewer: visible labels are kept.
ghost use Rattle.std.specs.Prelude.{◌≡◌, ◌≤◌, length, replicate};
ghost use Rattle.sums.specs.Bits.{bit};
ghost use Rattle.sums.specs.Lists.{in_front};
ghost use Rattle.table_words.specs.Sizes.{tips_most};
ghost use Rattle.levels.specs.Levels.{is_visible};

use levels::is_visible;
use table_words::TIPS;

// 1 for a visible label, 0 for a hidden one.
fn mark_of(levels: &[u8], viewer: u16, x: usize) -> u8
    ensures { result ≡ bit (is_visible levels.now viewer x) }
{
    if is_visible(levels, viewer, x) {
        return 1;
    }
    0
}

// A mark for each level, and zeros after them.
pub(crate) fn marks_for(levels: &[u8], viewer: u16) -> [u8; TIPS]
    requires { length levels.now ≤ tips_most }
    ensures { result ≡ in_front (length levels.now) (λ x. bit (is_visible levels.now viewer x)) (replicate tips_most 0) }
{
    let mut marks = [0u8; TIPS];
    for x in 0..levels.len() {
        marks[x] = mark_of(levels, viewer, x);
    }
    marks
}
