// Whether a quartet table is what the sets of four say: for at most 16 tips each of its counts, by the enumerator; for
// more tips that the five cases add up to all sets of four.
use super::cells::plus;
use super::{fours, print};
use quartets::QuartetTable;

// n(n - 1)(n - 2)(n - 3)/24 for the n of a table, and 0 for any other.
fn sets_of_four(n: u64) -> u64 {
    if n < 4 {
        return 0;
    }
    if 256 < n {
        return 0;
    }
    n * (n - 1) * (n - 2) * (n - 3) / 24
}

fn is_counted(table: QuartetTable, counts: &[u64; 9]) -> bool {
    let butterflies = (table.a == counts[0]) & (table.b == counts[1]);
    let stars = (table.c == counts[2]) & (table.d == counts[3]) & (table.e == counts[4]);
    butterflies & stars
}

fn adds_up(table: QuartetTable, n: u16) -> bool {
    let butterflies = plus(table.a, table.b);
    let all = plus(plus(plus(butterflies, table.c), table.d), table.e);
    all == sets_of_four(n as u64)
}

// The distance is B + C + D, and the five cases are as the sets of four say.
fn agrees(table: QuartetTable, first: &[u16], second: &[u16], n: u16) -> bool {
    if table.distance != plus(plus(table.b, table.c), table.d) {
        return false;
    }
    if 16 < n {
        return adds_up(table, n);
    }
    let mut counts = [0u64; 9];
    fours::count(first, second, n, &mut counts);
    is_counted(table, &counts)
}

fn print_agreement(n: u16, agrees: bool) {
    if 16 < n {
        print::name(b" large");
    }
    if agrees {
        print::name(b" agrees");
    } else {
        print::name(b" differs");
    }
}

pub(crate) fn print_of(table: QuartetTable, first: &[u16], second: &[u16]) {
    if table.refusal != 0 {
        print::name(b" refused");
    } else {
        let n = fours::tips_of(first);
        print_agreement(n, agrees(table, first, second, n));
    }
}
