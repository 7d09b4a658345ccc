// The tree check: whether a table keeps the rules of a tree table, or the number of the first one broken.
ghost use Rattle.std.specs.Prelude.{◌≡◌, ◌≤◌, eqb, length};
ghost use Rattle.table_words.specs.Sizes.{node_room, tips_most};
ghost use Rattle.sums.specs.Tests.{some, every};
ghost use Rattle.tree_check.specs.Table.{word};
ghost use Rattle.tree_check.specs.Refusals.{refusal};
ghost use Rattle.tree_check.specs.TreeOrder.{tips_fit, nodes_fit, parent_fits, label_fits, labels_fit, labels_once, misplaced};
ghost use Rattle.tree_check.specs.TreeOrder.{arrays_order, tree_order};
ghost use Rattle.tree_check.specs.theorems.TreeCheck.{ArraysFit};
ghost use Rattle.tree_check.specs.Check.{checked, TreeTold};
ghost use Rattle.tree_check.specs.lemmas.CheckOutcomes.{outcome};

use super::refusals::TableRefusal;
use super::tallies::tally;
use table_words::{INNER, TIPS};

// A table that is a tree: its tips and its nodes.
#[derive(Clone, Copy)]
pub struct Tree {
    pub tips: u16,
    pub nodes: u16,
}

// Whether node i may have the parent word p.
fn parent_fits(i: usize, p: usize) -> bool
    ensures { result ≡ parent_fits i p }
{
    if i < 2 {
        return p == 0;
    }
    if p < 1 {
        return false;
    }
    p < i
}

// Whether every parent word keeps its rule.
fn parents_fit(parents: &[u16]) -> bool
    ensures { result ≡ every (length parents.now) (λ i. parent_fits i (word parents.now i)) }
{
    for (i, parent) in parents.iter().enumerate() {
        if !parent_fits(i, usize::from(*parent)) {
            return false;
        }
    }
    true
}

// Whether a label is 65535 or below n.
fn label_fits(n: usize, l: usize) -> bool
    ensures { result ≡ label_fits n l }
{
    if l == INNER {
        return true;
    }
    l < n
}

// Whether every label is 65535 or below n. A loop, as the next: `all` takes a step more for each element.
fn labels_in_range(labels: &[u16], n: usize) -> bool
    ensures { result ≡ every (length labels.now) (λ i. label_fits n (word labels.now i)) }
{
    for label in labels {
        if !label_fits(n, usize::from(*label)) {
            return false;
        }
    }
    true
}

// Whether the first n counts are all 1.
fn all_one(counts: &[u16], n: usize) -> bool
    requires { n ≤ length counts.now }
    ensures { result ≡ every n (λ x. eqb (word counts.now x) 1) }
{
    for x in 0..n {
        if counts[x] != 1 {
            return false;
        }
    }
    true
}

// Whether node 0's label is 0, and every label 65535 or below n.
fn labels_fit(labels: &[u16], n: usize) -> bool
    requires { 1 ≤ length labels.now }
    ensures { result ≡ labels_fit n (length labels.now) (word labels.now) }
{
    if labels[0] != 0 {
        return false;
    }
    labels_in_range(labels, n)
}

// Whether each of 0 to n - 1 stands exactly once: one pass counts the labels, another reads the counts.
fn labels_once(labels: &[u16], n: usize) -> bool
    requires { (length labels.now ≤ node_room) × (n ≤ node_room) }
    ensures { result ≡ labels_once n (length labels.now) (word labels.now) }
{
    let counts = tally(labels);
    all_one(&counts, n)
}

// Whether node i with label l and k children is an inner node without one, or a tip other than node 0 with one.
fn is_misplaced(i: usize, l: usize, k: usize) -> bool
    ensures { result ≡ misplaced i l k }
{
    if l == INNER {
        return k < 1;
    }
    if i < 1 {
        return false;
    }
    1 <= k
}

// Whether some node is misplaced, given the numbers of children.
fn some_misplaced(labels: &[u16], kids: &[u16]) -> bool
    requires { length labels.now ≤ length kids.now }
    ensures { result ≡ some (length labels.now)
        (λ i. misplaced i (word labels.now i) (word kids.now i)) }
{
    for (i, label) in labels.iter().enumerate() {
        if is_misplaced(i, usize::from(*label), usize::from(kids[i])) {
            return true;
        }
    }
    false
}

// The rules 5, 6, 31 and 7 of the two arrays: one pass over the parents counts the children.
fn arrays_keep_rules(parents: &[u16], labels: &[u16], n: usize) -> Result<(), TableRefusal>
    requires { ArraysFit parents.now labels.now n }
    ensures { result ≡ outcome (refusal (arrays_order n (length parents.now)
        (word parents.now) (word labels.now))) }
{
    if !parents_fit(parents) {
        return Err(TableRefusal::Parents);
    }
    if !labels_fit(labels, n) {
        return Err(TableRefusal::Labels);
    }
    if !labels_once(labels, n) {
        return Err(TableRefusal::Repeated);
    }
    let kids = tally(&parents[1..]);
    if some_misplaced(labels, &kids) {
        return Err(TableRefusal::Misplaced);
    }
    Ok(())
}

fn tips_fit(n: usize) -> bool
    ensures { result ≡ tips_fit n }
{
    if n < 2 {
        return false;
    }
    n <= TIPS
}

fn nodes_fit(n: usize, m: usize) -> bool
    requires { (2 ≤ n) × (n ≤ tips_most) }
    ensures { result ≡ nodes_fit n m }
{
    if m < n {
        return false;
    }
    m <= 4 * n
}

// All rules of a tree table: the first broken one decides.
fn keeps_rules(table: &[u16]) -> Result<(), TableRefusal>
    ensures { result ≡ outcome (refusal (tree_order table.now)) }
{
    if table.len() < 2 {
        return Err(TableRefusal::TooFewWords);
    }
    let n = usize::from(table[0]);
    let m = usize::from(table[1]);
    if !tips_fit(n) {
        return Err(TableRefusal::Tips);
    }
    if !nodes_fit(n, m) {
        return Err(TableRefusal::Nodes);
    }
    if table.len() != 2 + 2 * m {
        return Err(TableRefusal::Length);
    }
    arrays_keep_rules(&table[2..2 + m], &table[2 + m..], n)
}

// Whether the words are a tree table. The first broken rule decides: 1 to 6, then 31, then 7.
pub fn check(table: &[u16]) -> Result<Tree, TableRefusal>
    ensures { (result ≡ checked table.now) × TreeTold table.now result }
{
    keeps_rules(table)?;
    Ok(Tree {
        tips: table[0],
        nodes: table[1],
    })
}
