// The words of a comparison file.
ghost use Rattle.std.specs.Prelude.{◌≡◌, ◌+◌, ◌*◌, ◌/◌, ◌≤◌, length, take};
ghost use Rattle.pair_file.specs.PairFile.{file_words};

// The word of two bytes, the lower first.
fn word_of(low: u8, high: u8) -> u16
    ensures { result ≡ low + 256 * high }
{
    low as u16 + 256 * (high as u16)
}

// The words of the bytes, in front of `words`; and how many there are. A last odd byte gives none.
pub(crate) fn decode(bytes: &[u8], words: &mut [u16]) -> usize
    requires { length bytes.now / 2 ≤ length words.old }
    ensures { (result ≡ length bytes.now / 2)
        × (take result words.new ≡ file_words bytes.now) }
{
    let count = bytes.len() / 2;
    for i in 0..count {
        words[i] = word_of(bytes[2 * i], bytes[2 * i + 1]);
    }
    count
}
