// The exported functions that write a table of one tree. A slice is a pointer to its elements, then their number.
ghost use Rattle.std.specs.Prelude.{◌≡◌, length};
ghost use Rattle.canonical_copy.specs.CopyAnswer.{copy_answer, after_copy};
ghost use Rattle.capi.specs.PlainTables.{plain_copy};

use super::answers::CopyAnswer;
use canonical_copy::canonical_copy;

// The kept part of a tree as a canonical table, in the lent words.
#[unsafe(no_mangle)]
pub extern "C" fn leskwyn_canonical_copy(
    table: &[u16],
    marks: &[u8],
    copy: &mut [u16],
) -> CopyAnswer
    ensures { (result ≡ plain_copy (copy_answer marks.now table.now (length copy.old)))
        × (copy.new ≡ after_copy marks.now table.now copy.old) }
{
    CopyAnswer::from(canonical_copy(table, marks, copy))
}
