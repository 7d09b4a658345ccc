// Cases of two tables that are counted, from 7 in every cell before each call.
use super::{cells, print, verdict};
use table_words::Cell;

// The name of a call, its number and its figures, and the sum of the cells after it.
fn print_figures(name: &[u8], refusal: u16, figures: &[u64], work: &[Cell]) {
    print::name(name);
    print::number(refusal);
    print::numbers(figures);
    print::number(cells::sum_of(work));
}

fn print_claims(first: &[u16], second: &[u16], marks: &[u8], work: &mut [Cell]) {
    work.fill(7);
    let sums = quartets::claim_sums(first, second, marks, work);
    let figures = [sums.first, sums.second, sums.same, sums.different];
    print_figures(b"claims", sums.refusal, &figures, work);
}

// Beside print_triplets, since their tables are of two types.
fn print_quartets(first: &[u16], second: &[u16], marks: &[u8], work: &mut [Cell]) {
    work.fill(7);
    let table = quartets::quartet_table(first, second, marks, work);
    let figures = [table.a, table.b, table.c, table.d, table.e, table.distance];
    print_figures(b" quartets", table.refusal, &figures, work);
    verdict::print_of(table, first, second);
}

fn print_triplets(first: &[u16], second: &[u16], work: &mut [Cell]) {
    work.fill(7);
    let table = quartets::triplet_table(first, second, work);
    let figures = [table.a, table.b, table.c, table.d, table.e, table.distance];
    print_figures(b" triplets", table.refusal, &figures, work);
}

pub(crate) fn quartets_case(first: &[u16], second: &[u16], marks: &[u8], work: &mut [Cell]) {
    print_claims(first, second, marks, work);
    print_quartets(first, second, marks, work);
    print_triplets(first, second, work);
}
