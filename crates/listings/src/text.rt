// Words, numbers and lines, put into a text one after the other. Each function answers where the text ends. By hand: each byte is
// promised, and nothing is allocated.
ghost use Rattle.std.specs.Prelude.{◌≡◌, ◌+◌, ◌*◌, ◌≤◌, length};
ghost use Rattle.listings.specs.lemmas.Written.{TextWritten, text_written};
ghost use Rattle.listings.specs.Lines.{spaced, spaced_all, line as lines_line};

// The bytes, from `at` on.
pub(crate) fn copy(bytes: &[u8], at: usize, out: &mut [u8]) -> usize
    requires { at + length bytes.now ≤ length out.old }
    ensures { (result ≡ at + length bytes.now)
        × (out.new ≡ text_written at bytes.now out.old) }
{
    let end = at + bytes.len();
    out[at..end].copy_from_slice(bytes);
    end
}

// The number, after a space.
fn put_number(n: u64, at: usize, out: &mut [u8]) -> usize
    requires { at + 21 ≤ length out.old }
    ensures { TextWritten at out.old (spaced n) result out.new × (result ≤ at + 21) }
{
    let mut digits = [0u8; 20];
    let k = io::decimal(n, &mut digits);
    out[at] = b' ';
    copy(&digits[..k], at + 1, out)
}

// The numbers, each after a space.
fn put_numbers(numbers: &[u64], at: usize, out: &mut [u8]) -> usize
    requires { at + 21 * length numbers.now ≤ length out.old }
    ensures { TextWritten at out.old (spaced_all numbers.now) result out.new
        × (result ≤ at + 21 * length numbers.now) }
{
    let mut end = at;
    for number in numbers {
        end = put_number(*number, end, out);
    }
    end
}

// The word, then the numbers, then a line end.
pub(crate) fn put_line(word: &[u8], numbers: &[u64], at: usize, out: &mut [u8]) -> usize
    requires { at + length word.now + 21 * length numbers.now + 1 ≤ length out.old }
    ensures { TextWritten at out.old (lines_line word.now numbers.now) result out.new
        × (result ≤ at + length word.now + 21 * length numbers.now + 1) }
{
    let middle = copy(word, at, out);
    let end = put_numbers(numbers, middle, out);
    out[end] = b'\n';
    end + 1
}
