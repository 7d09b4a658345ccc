// The numbers of a line, each but the last with one space after it, read byte by byte.

// A line as far as it has been read: how many numbers it has, and the number that is being read.
#[derive(Clone, Copy)]
pub(crate) struct Line {
    pub(crate) len: usize,
    pub(crate) number: u16,
}

// The digit d at the right of the number x; 65535 where that is too large.
pub(crate) fn with_digit(x: u16, d: u8) -> u16 {
    let y = x as u32 * 10 + d as u32;
    if 65535 < y {
        return 65535;
    }
    y as u16
}

// Puts a number after the first `len` words, if there is room for it; how many there are then.
pub(crate) fn put(words: &mut [u16], len: usize, number: u16) -> usize {
    if len < words.len() {
        words[len] = number;
        return len + 1;
    }
    len
}
