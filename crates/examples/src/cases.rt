// One case: KIND THOUSANDS UNITS WORDS FIRST SECOND. The call gets 1000 times THOUSANDS plus UNITS words, or
// cells where it is of two tables; FIRST has WORDS words and SECOND the rest of the line.
//
//   KIND  FIRST    SECOND  asked; what is printed after the name
//     0            table   check: the number, or 0 with tips and nodes
//     1            table   walk into words that hold 9000, 9001, ..: the number, then every word
//     2   edge     table   beyond, on words that hold 9000, 9001, ..: the number, then the part
//     3   edge     table   beyond, on the walk that `walk` writes: the number, then the part
//     4   3 labels table   centre: the number and the node
//     5   4 labels table   topology: the number, then 1 and the partner, or 0
//     6            table   every centre of three labels below 16 in rising order
//     7            table   every topology of four labels below 16 in rising order: the partner, or 0 for a star
//     8            table   every change of one word, in as many words as the table has: how many tables are
//                          accepted, and refused by each number 1 to 7, then by 31
//     9                    check of a table of as many zeros as there are words
//    10   table    table   crossings, on cells that hold 200, 201, .., 255, 200, ..: the number, then every cell
//    11   table    table   split counts, on the same: the number, first, second, common, distance, then every cell
//    12            table   crossings of one slice as both trees
//    13   table    table   claim sums and the quartet table, on cells that hold 7: claims, the number, S, S', S2, S3 and
//                          the sum of the cells afterwards; quartets, the number, A to E, the distance and the sum of the
//                          cells afterwards; last what verdict.rt says of the table
//    14            table   claim sums and the quartet table of one slice as both trees
//
// Any other kind, more words or cells than there are (1024 where every one is printed), and fewer words than WORDS are a bad case;
// an edge or a label that is missing is 0.
use super::kinds::{Kind, OfOne, OfTwo};
use super::{cells, changes, fours, pair_cases, print, quartet_cases, tree_cases};
use table_words::{Cell, TIPS};

// A case of one table, with as many words as it asks for; None where there are not so many.
fn ask_words(
    kind: OfOne,
    count: usize,
    first: &[u16],
    table: &[u16],
    lent: &mut [u16],
) -> Option<()> {
    let words = lent.get_mut(..count)?;
    if kind != OfOne::Zeros {
        cells::fill(words, cells::word_before);
    }
    match kind {
        OfOne::Check => tree_cases::check_case(table),
        OfOne::Walk => tree_cases::walk_case(table, words),
        OfOne::Beyond => tree_cases::part_case(b"beyond", cells::word_at(first, 0), table, words),
        OfOne::Walked => tree_cases::walked_case(cells::word_at(first, 0), table, words),
        OfOne::Centre => tree_cases::centre_case(first, table),
        OfOne::Topology => tree_cases::topology_case(first, table),
        OfOne::Centres => fours::print_sets(b"centres", 3, table),
        OfOne::Topologies => fours::print_sets(b"topologies", 4, table),
        OfOne::Changes => changes::changes_case(table, words),
        OfOne::Zeros => tree_cases::check_case(words),
    }
    Some(())
}

// A case of two tables, with as many cells as it asks for; None where there are not so many. Every label is kept: there is
// a mark of 1 for each tip of the second table, if it is one.
fn ask_cells(
    kind: OfTwo,
    count: usize,
    first: &[u16],
    second: &[u16],
    lent: &mut [Cell],
) -> Option<()> {
    let work = lent.get_mut(..count)?;
    let all = [1u8; TIPS];
    let marks = all.get(..usize::from(fours::tips_of(second)))?;
    match kind {
        OfTwo::Crossings => pair_cases::crossings_case(first, second, marks, work),
        OfTwo::Splits => pair_cases::splits_case(first, second, marks, work),
        OfTwo::CrossingsOfOne => pair_cases::crossings_case(second, second, marks, work),
        OfTwo::Quartets => quartet_cases::quartets_case(first, second, marks, work),
        OfTwo::QuartetsOfOne => quartet_cases::quartets_case(second, second, marks, work),
    }
    Some(())
}

// The arrays are made here, apart from what is asked of them: the check does not finish where a million words are written out.
fn ask_one(kind: OfOne, count: usize, first: &[u16], table: &[u16]) -> Option<()> {
    let mut words = [0u16; cells::MOST_CELLS];
    ask_words(kind, count, first, table, &mut words)
}

fn ask_two(kind: OfTwo, count: usize, first: &[u16], second: &[u16]) -> Option<()> {
    let mut work: [Cell; cells::MOST_CELLS] = [0; cells::MOST_CELLS];
    ask_cells(kind, count, first, second, &mut work)
}

// The case of a line; None, with nothing printed, where it is a bad one.
fn ask(line: &[u16]) -> Option<()> {
    let [kind, thousands, units, len, tables @ ..] = line else {
        return None;
    };
    let kind = Kind::try_from(*kind).ok()?;
    let count = usize::from(*thousands) * 1000 + usize::from(*units);
    if kind.most_cells() < count {
        return None;
    }
    let (first, second) = tables.split_at_checked(usize::from(*len))?;
    match kind {
        Kind::One(kind) => ask_one(kind, count, first, second),
        Kind::Two(kind) => ask_two(kind, count, first, second),
    }
}

// Runs the case of a line.
pub(crate) fn run(line: &[u16]) {
    if ask(line).is_none() {
        print::bad_case();
    }
    print::end();
}
