// A tree table re-rooted at another tip.
ghost use Rattle.std.specs.Prelude.{◌≡◌, ◌+◌, ◌*◌, ◌≤◌, ◌<◌, length};
ghost use Rattle.tree_check.specs.Table.{tips as table_tips, nodes as table_nodes};
ghost use Rattle.tree_check.specs.Refusals.{refusal};
ghost use Rattle.tree_check.specs.IsTree.{IsTree};
ghost use Rattle.sums.specs.Swaps.{swapped};
ghost use Rattle.rerooting.specs.Rerooted.{reroot_order, written, after_reroot};
ghost use Rattle.rerooting.specs.lemmas.Writing.{TableNumbered, NodesWritten, parent_for};

use super::numbers::new_numbers;
use table_words::{NODES, as_word};
use tree_check::{Refusal, check, refusal_of};
use trees::node_of;

// 0 for x, x for 0, and any other label as it is.
fn exchange(x: u16, y: u16) -> u16
    ensures { result ≡ swapped 0 x y }
{
    if y == 0 {
        return x;
    }
    if y == x {
        return 0;
    }
    y
}

// The new parent of the node with the new number i: on the path, which ends with the number `last`, the node before; off it
// the node's parent, whose new number is p.
fn parent_for(i: usize, last: usize, p: usize) -> usize
    ensures { result ≡ parent_for i last p }
{
    if last < i {
        return p;
    }
    if i == 0 {
        return 0;
    }
    i - 1
}

// The parent and the label of each node, where its new number says.
fn write_nodes(table: &[u16], m: usize, x: u16, news: &[usize; NODES], out: &mut [u16])
    requires { TableNumbered table.now m x news.now × (2 + 2 * table_nodes table.now ≤ length out.old) }
    ensures { NodesWritten table.now x m out.old out.new }
{
    let last = news[0];
    for v in 0..m {
        let i = news[v];
        let p = news[usize::from(table[2 + v])];
        out[2 + i] = as_word(parent_for(i, last, p));
        out[2 + (m + i)] = exchange(x, table[2 + (m + v)]);
    }
}

// The whole table.
fn write_table(table: &[u16], m: usize, x: u16, out: &mut [u16])
    requires { IsTree table.now × (m ≡ table_nodes table.now) × (x < table_tips table.now)
        × (2 + 2 * table_nodes table.now ≤ length out.old) }
    ensures { out.new ≡ written table.now x out.old }
{
    let z = node_of(&table[2 + m..], x);
    let news = new_numbers(&table[2..2 + m], z);
    out[0] = table[0];
    out[1] = table[1];
    write_nodes(table, m, x, &news, out);
}

// The table re-rooted at the tip with this label, which changes places with label 0, into the first 2 + 2m lent cells.
// The answer is the number itself, as docs/LIBRARY.md promises.
pub fn reroot(table: &[u16], label: u16, out: &mut [u16]) -> u16
    ensures { (result ≡ refusal (reroot_order table.now label (length out.old)))
        × (out.new ≡ after_reroot table.now label out.old) }
{
    let answer = check(table);
    let Ok(tree) = answer else {
        return refusal_of(answer);
    };
    if tree.tips <= label {
        return u16::from(Refusal::TooLarge);
    }
    let m = usize::from(tree.nodes);
    if out.len() < 2 + 2 * m {
        return u16::from(Refusal::Short);
    }
    write_table(table, m, label, out);
    0
}
