// The exported functions for viewers, by levels of the labels. A slice is a pointer to its elements, then their number.
ghost use Rattle.std.specs.Prelude.{◌≡◌, length};
ghost use Rattle.levels.specs.ViewTopology.{view_topology};
ghost use Rattle.views.specs.View.{view_answer, after_view};
ghost use Rattle.capi.specs.PlainAnswers.{plain_topology};
ghost use Rattle.capi.specs.PlainViews.{plain_view};

use super::answers::{TopologyAnswer, ViewAnswer};
use table_words::Cell;
use views::{view, view_topology};

// What a viewer is told of two trees; the crossings of the visible labels are in the lent cells afterwards.
#[unsafe(no_mangle)]
pub extern "C" fn leskwyn_view(
    first: &[u16],
    second: &[u16],
    levels: &[u8],
    viewer: u16,
    work: &mut [Cell],
) -> ViewAnswer
    ensures { (result ≡ plain_view (view_answer first.now second.now levels.now viewer (length work.old)))
        × (work.new
        ≡ after_view first.now second.now levels.now viewer work.old) }
{
    ViewAnswer::from(view(first, second, levels, viewer, work))
}

// The topology of four labels, for a viewer.
#[unsafe(no_mangle)]
pub extern "C" fn leskwyn_view_topology(
    table: &[u16],
    levels: &[u8],
    viewer: u16,
    a: u16,
    b: u16,
    c: u16,
    d: u16,
) -> TopologyAnswer
    ensures { result ≡ plain_topology (view_topology table.now levels.now viewer a b c d) }
{
    TopologyAnswer::from(view_topology(table, levels, viewer, a, b, c, d))
}
