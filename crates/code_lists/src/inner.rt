// The nodes with three codes or more into them.
ghost use Rattle.std.specs.Prelude.{◌≡◌, ℕ, ◌-◌};
ghost use Rattle.tree_check.specs.Table.{word};
ghost use Rattle.code_lists.specs.ListedCodes.{inner_count, nodes_seen, inner_cell};

// How many codes begin at `from` and end before `to`.
fn codes_between(from: usize, to: usize) -> usize
    ensures { result ≡ to - from }
{
    if to < from {
        return 0;
    }
    to - from
}

// The nodes with three codes or more into them, listed from the front of `inner`, by where the codes into each node
// begin. How many there are. Nothing is listed where fewer cells are lent than there are starts.
pub fn inner_nodes(starts: &[usize], inner: &mut [usize]) -> usize
    ensures { (result ≡ inner_count starts.now (nodes_seen starts.now inner.old))
        × ((i : ℕ) → word inner.new i ≡ inner_cell starts.now inner.old i) }
{
    if inner.len() < starts.len() {
        return 0;
    }
    let mut count = 0;
    for v in 1..starts.len() {
        let is_inner = 3 <= codes_between(starts[v - 1], starts[v]);
        if is_inner {
            inner[count] = v - 1;
            count += 1;
        }
    }
    count
}
