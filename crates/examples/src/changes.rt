// Every change of one word of a table, counted by what the check answers.
use super::fours::one_more;
use super::{cells, print};

// The place of a number of the check: 0 to 7 at their own, 31 at 8. Any other is not counted.
fn place_of_number(number: u16) -> usize {
    if number < 8 {
        return usize::from(number);
    }
    if number == 31 { 8 } else { 9 }
}

// The number of the check where the word at `at` is x, counted unless x stands there; the word is put back.
fn try_word(table: &mut [u16], at: usize, x: u16, counts: &mut [u64; 9]) {
    if at < table.len() {
        let old = table[at];
        if x != old {
            table[at] = x;
            one_more(
                counts,
                place_of_number(trees::refusal_of(trees::check(table))),
            );
            table[at] = old;
        }
    }
}

fn try_words(table: &mut [u16], at: usize, counts: &mut [u64; 9]) {
    for x in 0..=65535 {
        try_word(table, at, x, counts);
    }
}

// The table is copied to the cells, and changed there.
pub(crate) fn changes_case(words: &[u16], table: &mut [u16]) {
    cells::copy(words, table);
    let mut counts = [0u64; 9];
    for at in 0..table.len() {
        try_words(table, at, &mut counts);
    }
    print::name(b"changes");
    print::numbers(&counts);
}
