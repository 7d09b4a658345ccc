// The levels of labels: checked, the visible labels counted, and whether one is visible.
ghost use Rattle.std.specs.Prelude.{◌≡◌, not, ◌<◌, ltb, length};
ghost use Rattle.sums.specs.Counts.{count};
ghost use Rattle.sums.specs.Tests.{some};
ghost use Rattle.tree_check.specs.Table.{word};
ghost use Rattle.levels.specs.Levels.{level_most, is_visible, checked_levels};

use table_words::cell_word;
use tree_check::Refusal;

// The highest level.
const HIGHEST: u16 = 3;

// The number, and how many labels are visible.
// No Result: a refused call gives its number, and zeros (docs/SPECIFICATION.md, 7.2).
#[derive(Clone, Copy)]
pub struct CheckedLevels {
    pub refusal: u16,
    pub visible: u16,
}

// Whether some level is above the highest.
fn some_high(levels: &[u8]) -> bool
    ensures { result ≡ some (length levels.now) (λ x. ltb level_most (word levels.now x)) }
{
    levels.iter().any(|level| HIGHEST < cell_word(*level))
}

// Whether the label x is visible: it has a level, and that is not above the viewer's.
pub fn is_visible(levels: &[u8], viewer: u16, x: usize) -> bool
    ensures { result ≡ is_visible levels.now viewer x }
{
    if levels.len() <= x {
        return false;
    }
    cell_word(levels[x]) <= viewer
}

// How many labels are visible.
fn visible_labels(levels: &[u8], viewer: u16) -> u16
    requires { length levels.now < 65536 }
    ensures { result ≡ count (length levels.now) (is_visible levels.now viewer) }
{
    let mut total = 0u16;
    for x in 0..levels.len() {
        if is_visible(levels, viewer, x) {
            total += 1;
        }
    }
    total
}

// Refused levels make no label visible.
fn refused() -> CheckedLevels
    ensures { result ≡ record { refusal = 37; visible = 0 } }
{
    CheckedLevels {
        refusal: u16::from(Refusal::Levels),
        visible: 0,
    }
}

// 37: there are not exactly n levels, or a level or the viewer's is above 3.
pub fn check_levels(levels: &[u8], viewer: u16, n: u16) -> CheckedLevels
    ensures { result ≡ checked_levels levels.now viewer n }
{
    if levels.len() != usize::from(n) {
        return refused();
    }
    if some_high(levels) {
        return refused();
    }
    if HIGHEST < viewer {
        return refused();
    }
    CheckedLevels {
        refusal: 0,
        visible: visible_labels(levels, viewer),
    }
}

// Whether one of the labels is hidden.
pub(crate) fn some_hidden(levels: &[u8], viewer: u16, asked: &[u16]) -> bool
    ensures { result ≡ some (length asked.now) (λ i. not (is_visible levels.now viewer (word asked.now i))) }
{
    asked
        .iter()
        .any(|x| !is_visible(levels, viewer, usize::from(*x)))
}
