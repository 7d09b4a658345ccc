// One comparison file, compared: its bytes cut into two tables, and the four counts of the pair.
ghost use Rattle.std.specs.Prelude.{◌≡◌};
ghost use Rattle.listings.specs.Listing.{of_refusal};
ghost use Rattle.pair_file.specs.PairFile.{comparison};
ghost use Rattle.pair_file.specs.lemmas.PairFigures.{pair_figures, word_figures, called_with};

use super::words::decode;
use listings::{Claims, Figures, Quartets, Splits, Triplets};
use pair_check::check_cells;
use quartets::{Refusal, claim_sums, quartet_table, refusal_of, split_counts, triplet_table};
use table_words::{Cell, TIPS, table_length};

// The most bytes of a file, and the most words.
const BYTES: usize = 1016;

const WORDS: usize = 508;

// The cells lent to one operation after the other: enough for any two trees of one file, so that 9 never occurs.
const CELLS: usize = 15625;

// The number of a refusal, and zeros.
fn refused(number: u16) -> Figures
    ensures { result ≡ of_refusal number }
{
    Figures {
        refusal: number,
        tips: 0,
        claims: Claims {
            first: 0,
            second: 0,
            same: 0,
            different: 0,
        },
        quartets: Quartets {
            a: 0,
            b: 0,
            c: 0,
            d: 0,
            e: 0,
        },
        distance: 0,
        splits: Splits {
            first: 0,
            second: 0,
            common: 0,
            distance: 0,
        },
        triplets: Triplets {
            a: 0,
            b: 0,
            c: 0,
            d: 0,
            e: 0,
        },
    }
}

// The figures of a pair on so many tips: what the four calls with these marks tell.
fn figures_of(first: &[u16], second: &[u16], marks: &[u8], tips: u16) -> Figures
    ensures { result ≡ called_with first.now second.now marks.now tips }
{
    let mut work: [Cell; CELLS] = [0; CELLS];
    let sums = claim_sums(first, second, marks, &mut work);
    let cases = quartet_table(first, second, marks, &mut work);
    let counts = split_counts(first, second, marks, &mut work);
    let threes = triplet_table(first, second, &mut work);
    Figures {
        refusal: 0,
        tips,
        claims: Claims {
            first: sums.first,
            second: sums.second,
            same: sums.same,
            different: sums.different,
        },
        quartets: Quartets {
            a: cases.a,
            b: cases.b,
            c: cases.c,
            d: cases.d,
            e: cases.e,
        },
        distance: cases.distance,
        splits: Splits {
            first: counts.first,
            second: counts.second,
            common: counts.common,
            distance: counts.distance,
        },
        triplets: Triplets {
            a: threes.a,
            b: threes.b,
            c: threes.c,
            d: threes.d,
            e: threes.e,
        },
    }
}

// The figures of two tables, by the order of a pair without marks: every label is kept.
fn compare_tables(first: &[u16], second: &[u16]) -> Figures
    ensures { result ≡ pair_figures first.now second.now }
{
    let answer = check_cells(first, second, CELLS);
    let Ok(pair) = answer else {
        return refused(refusal_of(answer));
    };
    let marks = [1u8; TIPS];
    let n = usize::from(pair.tips);
    figures_of(first, second, &marks[..n], pair.tips)
}

// The figures of a file's words: the first table by its own length, then the rest.
fn compare_words(words: &[u16]) -> Figures
    ensures { result ≡ word_figures words.now }
{
    let k = table_length(words);
    compare_tables(&words[..k], &words[k..])
}

// One comparison file, compared. 14: more than 1016 bytes; 15: an odd number of bytes; then the pair's order. A
// refusal gives zeros.
pub fn compare(bytes: &[u8]) -> Figures
    ensures { result ≡ comparison bytes.now }
{
    if BYTES < bytes.len() {
        return refused(u16::from(Refusal::LongFile));
    }
    if bytes.len() % 2 != 0 {
        return refused(u16::from(Refusal::OddFile));
    }
    let mut words = [0u16; WORDS];
    let count = decode(bytes, &mut words);
    compare_words(&words[..count])
}
