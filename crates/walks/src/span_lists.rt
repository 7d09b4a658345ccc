// The spans of a tree table: which node each label's tip is, and where the labels at or below each node stand in the walk.
// Places are counted from the one after label 0's, so that a cell holds each of them.
ghost use Rattle.std.specs.Prelude.{◌≡◌, ◌-◌, ◌≤◌, length};
ghost use Rattle.table_words.specs.Sizes.{node_room};
ghost use Rattle.sums.specs.Lists.{in_front};
ghost use Rattle.tree_check.specs.Table.{tips as table_tips, nodes as table_nodes, node_of};
ghost use Rattle.tree_check.specs.lemmas.TableParts.{table_of};
ghost use Rattle.tree_check.specs.Refusals.{refusal};
ghost use Rattle.tree_check.specs.Numbers.{answer_by};
ghost use Rattle.walks.specs.Spans.{lists_order, spans_order, span_begin, span_end, filled};
ghost use Rattle.walks.specs.lemmas.TreeArrays.{TreeArrays};
ghost use Rattle.walks.specs.lemmas.SpanLists.{NodesListed};

use super::sizes::{ends, sizes};
use table_words::{Cell, NODES, as_cell, as_word};
use tree_check::{Refusal, check, refusal_of};

// The node of each label below n: the last one that has it.
fn list_nodes(labels: &[u16], n: usize, labelled: &mut [u16])
    requires { (length labels.now ≤ node_room) × (n ≤ length labelled.old) }
    ensures { NodesListed labels.now n (length labels.now) labelled.old
        labelled.new }
{
    for (v, label) in labels.iter().enumerate() {
        let x = usize::from(*label);
        let is_label = x < n;
        if is_label {
            labelled[x] = as_word(v);
        }
    }
}

// One less, and 0 for 0.
fn one_less(x: usize) -> usize
    ensures { result ≡ x - 1 }
{
    if x == 0 {
        return 0;
    }
    x - 1
}

// Where the span of each node begins, and the place after it.
fn list_spans(parents: &[u16], labels: &[u16], n: usize, begin: &mut [Cell], end: &mut [Cell])
    requires { TreeArrays n parents.now labels.now × (length parents.now ≤ length begin.old)
        × (length parents.now ≤ length end.old) }
    ensures { (begin.new ≡ in_front (length parents.now)
        (span_begin (table_of n parents.now labels.now)) begin.old)
        × (end.new ≡ in_front (length parents.now)
        (span_end (table_of n parents.now labels.now)) end.old) }
{
    let mut size = [0usize; NODES];
    sizes(parents, labels, n, &mut size);
    let mut reach = [0usize; NODES];
    ends(parents, labels, n, &size, &mut reach);
    for v in 0..parents.len() {
        begin[v] = as_cell(one_less(reach[v] - size[v]));
        end[v] = as_cell(one_less(reach[v]));
    }
}

// Whether the lists have a cell for each of n labels and m nodes.
fn have_room(labelled: usize, begin: usize, end: usize, n: usize, m: usize) -> Result<(), Refusal>
    ensures { result ≡ answer_by (refusal (lists_order labelled begin end n m)) tt }
{
    if labelled < n {
        return Err(Refusal::Short);
    }
    if begin < m {
        return Err(Refusal::Short);
    }
    if end < m {
        return Err(Refusal::Short);
    }
    Ok(())
}

// The node of each label, and for each node where the labels but 0 at or below it begin in the walk and the place after them.
// Later cells of the three lists stay.
// The answer is the number itself, as docs/LIBRARY.md promises.
pub fn spans(table: &[u16], labelled: &mut [u16], begin: &mut [Cell], end: &mut [Cell]) -> u16
    ensures { (result ≡ refusal (spans_order table.now (length labelled.old) (length begin.old)
        (length end.old)))
        × (labelled.new
        ≡ filled result (table_tips table.now) (node_of table.now) labelled.old)
        × (begin.new
        ≡ filled result (table_nodes table.now) (span_begin table.now) begin.old)
        × (end.new
        ≡ filled result (table_nodes table.now) (span_end table.now) end.old) }
{
    let answer = check(table);
    let Ok(tree) = answer else {
        return refusal_of(answer);
    };
    let n = usize::from(tree.tips);
    let m = usize::from(tree.nodes);
    if let Err(refusal) = have_room(labelled.len(), begin.len(), end.len(), n, m) {
        return u16::from(refusal);
    }
    list_nodes(&table[2 + m..], n, labelled);
    list_spans(&table[2..2 + m], &table[2 + m..], n, begin, end);
    0
}
