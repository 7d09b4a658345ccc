// Cases of two tables whose every cell is printed, from 200, 201, .. in the cells.
use super::{cells, print};
use table_words::Cell;

pub(crate) fn crossings_case(first: &[u16], second: &[u16], marks: &[u8], work: &mut [Cell]) {
    cells::fill(work, cells::cell_before);
    print::name(b"crossings");
    print::number(tree_pairs::crossings(first, second, marks, work));
    print::numbers(work);
}

pub(crate) fn splits_case(first: &[u16], second: &[u16], marks: &[u8], work: &mut [Cell]) {
    cells::fill(work, cells::cell_before);
    let counts = splits::split_counts(first, second, marks, work);
    print::name(b"splits");
    print::numbers(&[
        counts.refusal,
        counts.first,
        counts.second,
        counts.common,
        counts.distance,
    ]);
    print::numbers(work);
}
