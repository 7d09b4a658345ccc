// The comparing program: the two tables of standard input compared, and the listing written to standard output. Input
// that cannot be read is not compared: then there is a line on standard error, and nothing on standard output.
#![tactic(auto)]

mod input; // input.rt: standard input, read to its end or to a failure

use input::read_input;
use listings::TEXT;

// Compares the bytes of a file and writes the listing; or a line on standard error where it cannot be written whole.
fn write_listing(bytes: &[u8]) {
    let figures = pair_file::compare(bytes);
    let mut text = [0u8; TEXT];
    let k = listings::listing(figures, &mut text);
    if !io::write_all(1, &text[..k]) {
        io::write_all(2, b"compare: cannot write to standard output\n");
    }
}

// One byte more than a file may have, so that a longer one shows.
const INPUT: usize = 1017;

fn main(rt: HostRuntime) {
    let mut bytes = [0u8; INPUT];
    let mut source = rt.stdin();
    let Ok(n) = read_input(&mut source, &mut bytes) else {
        io::write_all(2, b"compare: cannot read standard input\n");
        return;
    };
    write_listing(&bytes[..n]);
}
