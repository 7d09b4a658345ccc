// What a viewer is told of two trees: how many labels are visible, and the quartet table and the split counts over them.
ghost use Rattle.std.specs.Prelude.{◌≡◌, length};
ghost use Rattle.views.specs.View.{refused_view, view_answer, after_view};

use super::marking::marks_for;
use levels::check_levels;
use quartets::{check_pair, quartet_table, refusal_of, split_counts};
use table_words::Cell;

// The number; how many labels are visible; A to E and B + C + D over them; their splits in the first tree, in the second and in
// both, and the Robinson-Foulds distance.
// No Result: a refused call gives its number, and zeros (docs/SPECIFICATION.md, 7.2).
#[derive(Clone, Copy)]
pub struct ViewAnswer {
    pub refusal: u16,
    pub visible: u64,
    pub a: u64,
    pub b: u64,
    pub c: u64,
    pub d: u64,
    pub e: u64,
    pub distance: u64,
    pub first_splits: u64,
    pub second_splits: u64,
    pub common_splits: u64,
    pub robinson_foulds: u64,
}

// A refusal tells zeros.
fn refused(number: u16) -> ViewAnswer
    ensures { result ≡ refused_view number }
{
    ViewAnswer {
        refusal: number,
        visible: 0,
        a: 0,
        b: 0,
        c: 0,
        d: 0,
        e: 0,
        distance: 0,
        first_splits: 0,
        second_splits: 0,
        common_splits: 0,
        robinson_foulds: 0,
    }
}

// What a viewer is told over the visible labels, with their crossings in the cells afterwards, which are the desk's. The pair's
// order to 8, then 37, then 9.
pub fn view(
    first: &[u16],
    second: &[u16],
    levels: &[u8],
    viewer: u16,
    work: &mut [Cell],
) -> ViewAnswer
    ensures { (result ≡ view_answer first.now second.now levels.now viewer (length work.old))
        × (work.new
        ≡ after_view first.now second.now levels.now viewer work.old) }
{
    let answer = check_pair(first, second);
    let Ok(pair) = answer else {
        return refused(refusal_of(answer));
    };
    let told = check_levels(levels, viewer, pair.tips);
    if told.refusal != 0 {
        return refused(told.refusal);
    }
    let marks = marks_for(levels, viewer);
    let n = usize::from(pair.tips);
    let table = quartet_table(first, second, &marks[..n], work);
    if table.refusal != 0 {
        return refused(table.refusal);
    }
    let splits = split_counts(first, second, &marks[..n], work);
    ViewAnswer {
        refusal: 0,
        visible: u64::from(told.visible),
        a: table.a,
        b: table.b,
        c: table.c,
        d: table.d,
        e: table.e,
        distance: table.distance,
        first_splits: u64::from(splits.first),
        second_splits: u64::from(splits.second),
        common_splits: u64::from(splits.common),
        robinson_foulds: u64::from(splits.distance),
    }
}
