// The walk of a tree table.
ghost use Rattle.std.specs.Prelude.{◌≡◌, ◌≤◌, length};
ghost use Rattle.tree_check.specs.lemmas.TableParts.{table_of};
ghost use Rattle.tree_check.specs.Refusals.{refusal};
ghost use Rattle.tree_check.specs.Numbers.{answer_by};
ghost use Rattle.walks.specs.WalkOrders.{room_order, walk_order};
ghost use Rattle.walks.specs.Walk.{walked, after_walk};
ghost use Rattle.walks.specs.lemmas.TreeArrays.{TreeArrays};

use super::sizes::{ends, sizes};
use table_words::NODES;
use tree_check::{Refusal, check, refusal_of};

// Each tip's label is written where its node starts in the walk.
fn write_walk(parents: &[u16], labels: &[u16], n: usize, cells: &mut [u16])
    requires { TreeArrays n parents.now labels.now × (n ≤ length cells.old) }
    ensures { cells.new
        ≡ walked (table_of n parents.now labels.now) cells.old }
{
    let mut size = [0usize; NODES];
    sizes(parents, labels, n, &mut size);
    let mut end = [0usize; NODES];
    ends(parents, labels, n, &size, &mut end);
    for (v, label) in labels.iter().enumerate() {
        let is_tip = usize::from(*label) < n;
        if is_tip {
            cells[end[v] - size[v]] = *label;
        }
    }
}

// Whether so many cells hold a walk of n labels.
fn has_room(cells: usize, n: usize) -> Result<(), Refusal>
    ensures { result ≡ answer_by (refusal (room_order cells n)) tt }
{
    if cells < n {
        return Err(Refusal::Short);
    }
    Ok(())
}

// The labels depth first from node 0, children in rising node number, into the first n lent cells.
// The answer is the number itself, as docs/LIBRARY.md promises.
pub fn walk(table: &[u16], cells: &mut [u16]) -> u16
    ensures { (result ≡ refusal (walk_order table.now (length cells.old)))
        × (cells.new ≡ after_walk table.now cells.old) }
{
    let answer = check(table);
    let Ok(tree) = answer else {
        return refusal_of(answer);
    };
    let n = usize::from(tree.tips);
    if let Err(refusal) = has_room(cells.len(), n) {
        return u16::from(refusal);
    }
    let m = usize::from(tree.nodes);
    write_walk(&table[2..2 + m], &table[2 + m..], n, cells);
    0
}
