// Standard input, read to its end or to a failure. Only a read that answers 0 is the end.
ghost use Rattle.std.specs.Prelude.{◌≡◌, length};
ghost use Rattle.compare.specs.Input.{Within};
ghost use Rattle.compare.specs.lemmas.InputLaws.{read_answer};

use std::io::{Read, Result};

// What a read into `part` answered: how many bytes came, or that it failed. A read that a signal broke off counts as
// failed: the program has no handler, so no signal that leaves it running breaks one off.
fn answer(got: Result<usize>, part: &[u8]) -> Result<usize>
    ensures { result ≡ read_answer got (length part.now) }
{
    let n = got?;
    Ok(n.min(part.len()))
}

// One read into `part`.
fn read_some<R: Read>(source: &mut R, part: &mut [u8]) -> Result<usize>
    ensures { Within result part.new }
{
    let got = source.read(part);
    answer(got, part)
}

// Reads until `bytes` is full or the input ends, and answers how many bytes stand in front of `bytes`; or stops at the
// first read that fails.
pub fn read_input<R: Read>(source: &mut R, bytes: &mut [u8]) -> Result<usize>
    ensures { Within result bytes.new }
{
    let mut done = 0;
    while done < bytes.len() {
        let n = read_some(source, &mut bytes[done..])?;
        if n == 0 {
            return Ok(done);
        }
        done += n;
    }
    Ok(done)
}
