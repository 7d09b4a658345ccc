// The words of a list cut into tables.
ghost use Rattle.std.specs.Prelude.{◌≡◌, ◌-◌, ◌≤◌, ◌<◌, length};
ghost use Rattle.tree_check.specs.Table.{tips as table_tips, nodes as table_nodes};
ghost use Rattle.tree_lists.specs.TreeLists.{trees_most};
ghost use Rattle.tree_lists.specs.lemmas.Starts.{TableStarts};

use table_words::table_length;

// The length of an array that has a cell for where each table starts, and one for their end.
pub const STARTS: usize = 17;

// Word 0; 0 where there is none.
pub(crate) fn word_0(words: &[u16]) -> u16
    ensures { result ≡ table_tips words.now }
{
    if words.len() == 0 {
        return 0;
    }
    words[0]
}

// One less than word 1 of a table: its edges; 0 where there is none.
pub(crate) fn edges_of(words: &[u16]) -> usize
    ensures { (result ≡ table_nodes words.now - 1) × (result < 65536) }
{
    if words.len() < 2 {
        return 0;
    }
    let m = usize::from(words[1]);
    if m == 0 {
        return 0;
    }
    m - 1
}

// Where each of the first k tables starts, and where they end; 0 in the cells after that.
pub(crate) fn starts_of(list: &[u16], k: usize) -> [usize; STARTS]
    requires { (1 ≤ length list.now) × (k ≤ trees_most) }
    ensures { TableStarts list.now k result }
{
    let mut starts = [0usize; STARTS];
    starts[0] = 1;
    let mut at = 1;
    for i in 0..k {
        at += table_length(&list[at..]);
        starts[i + 1] = at;
    }
    starts
}
