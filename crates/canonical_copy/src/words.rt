// The words of the copy.
ghost use Rattle.std.specs.Prelude.{◌≡◌, length};
ghost use Rattle.canonical_copy.specs.lemmas.Parents.{ParentsBefore};
ghost use Rattle.canonical_copy.specs.lemmas.ParentNumbers.{ParentNumbers};
ghost use Rattle.canonical_copy.specs.lemmas.Writing.{label_for, Writable, CopyWritten};

use table_words::{NODES, as_word};

// For each node the number of the next node above that stays; node 0 has its own.
pub(crate) fn parent_numbers(
    parents: &[u16],
    bits: &[u16; NODES],
    numbers: &[u16; NODES],
) -> [u16; NODES]
    requires { ParentsBefore parents.now }
    ensures { ParentNumbers parents.now bits.now numbers.now (length parents.now) result }
{
    let mut above = [0u16; NODES];
    for (v, parent) in parents.iter().enumerate() {
        let p = usize::from(*parent);
        if bits[p] == 1 {
            above[v] = numbers[p];
        } else {
            above[v] = above[p];
        }
    }
    above
}

// The label word of a node with this rank, or with none.
fn label_for(rank: u16, k: u16) -> u16
    ensures { result ≡ label_for rank k }
{
    if rank < k {
        return rank;
    }
    65535
}

// The words: k, how many of m nodes stay, then a parent and a label for each that does, where its number says.
pub(crate) fn write_words(
    ranks: &[u16; NODES],
    bits: &[u16; NODES],
    numbers: &[u16; NODES],
    above: &[u16; NODES],
    m: usize,
    k: u16,
    count: usize,
    copy: &mut [u16],
)
    requires { Writable bits.now numbers.now m count copy.old }
    ensures { CopyWritten ranks.now bits.now numbers.now above.now m k count
        copy.old copy.new }
{
    copy[0] = k;
    copy[1] = as_word(count);
    for v in 0..m {
        if bits[v] == 1 {
            let i = usize::from(numbers[v]);
            copy[2 + i] = above[v];
            copy[2 + (count + i)] = label_for(ranks[v], k);
        }
    }
}
