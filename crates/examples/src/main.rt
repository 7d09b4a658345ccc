// Runs the libraries on cases from standard input and prints what they answer, a line for a case.
//
// A case is a line of decimal numbers; cases.rt lists the kinds. The files stdin and stdout are written by
// tests/example_cases.py, which works the answers out of docs/SPECIFICATION.md and shares nothing with the libraries.
#![tactic(auto)]

mod cases; // cases.rt: a case, asked by its kind
mod cells; // cells.rt: what lent cells hold before a call, and their sum afterwards
mod changes; // changes.rt: every change of one word of a table
mod fours; // fours.rt: every set of three and of four labels
mod kinds; // kinds.rt: the kinds of cases
mod pair_cases; // pair_cases.rt: crossings and split counts
mod print; // print.rt: names and numbers on a line
mod quartet_cases; // quartet_cases.rt: claim sums and quartet tables
mod reader; // reader.rt: the numbers of a line
mod tree_cases; // tree_cases.rt: one table checked, walked and asked
mod verdict; // verdict.rt: whether a quartet table is what the sets of four say

use reader::Line;

// Takes one byte of the text: a digit goes to the number, any other byte ends it, and a line end runs the case.
fn step(line: Line, byte: u8, words: &mut [u16]) -> Line {
    if 48 <= byte {
        return Line {
            len: line.len,
            number: reader::with_digit(line.number, byte - 48),
        };
    }
    let len = reader::put(words, line.len, line.number);
    if byte != 10 {
        return Line { len, number: 0 };
    }
    if len <= words.len() {
        cases::run(&words[..len]);
    }
    Line { len: 0, number: 0 }
}

// A line of two tables of 256 tips has up to 2048 numbers.
fn read_cases(text: &[u8]) {
    let mut words = [0u16; 2100];
    let mut line = Line { len: 0, number: 0 };
    for byte in text {
        line = step(line, *byte, &mut words);
    }
}

fn main() {
    let mut text = [0u8; 278528];
    let n = io::read_full(0, &mut text);
    read_cases(&text[..n]);
}
