// The canonical copy of a tree table.
ghost use Rattle.std.specs.Prelude.{◌≡◌, length};
ghost use Rattle.canonical.specs.CanonicalCopy.{canonical_copy};
ghost use Rattle.canonical_copy.specs.CopyAnswer.{copy_answer, after_copy, Copied};
ghost use Rattle.canonical_copy.specs.lemmas.RootedCopy.{RootedRanks, CopiedInto, CopiedFrom};
ghost use Rattle.canonical_copy.specs.lemmas.KeptCopy.{RootedTable, TableCopied, KeptTable};

use super::branches::{add_sizes, branch_counts, lower, stay_bits};
use super::numbers::{chain, numbers};
use super::ranks::{first_kept, label_ranks, node_ranks};
use super::words::{parent_numbers, write_words};
use marks::check_marks;
use rerooting::reroot;
use table_words::{NODES, TABLE_WORDS, TIPS, as_word};
use tree_check::{Refusal, check, refusal_of};

// The number, and how many words the copy has.
// No Result: a refused call gives its number, and zeros (docs/SPECIFICATION.md, 7.2).
#[derive(Clone, Copy)]
pub struct CopyAnswer {
    pub refusal: u16,
    pub words: u16,
}

// The copy of a tree that is rooted at the tip of rank 0, if the slice has words enough for it. How many words it has, or 0 where
// the slice has fewer.
fn rooted_copy(
    parents: &[u16],
    labels: &[u16],
    ranks: &[u16; TIPS],
    k: u16,
    copy: &mut [u16],
) -> usize
    requires { RootedRanks parents.now labels.now ranks.now k }
    ensures { CopiedFrom parents.now labels.now ranks.now k copy.old
        copy.new result }
{
    let m = parents.len();
    let at = node_ranks(labels, ranks, k);
    let mut lows = at;
    lower(parents, &mut lows);
    let branches = branch_counts(parents, &lows, k);
    let bits = stay_bits(&at, &branches, m, k);
    let mut sizes = bits;
    add_sizes(parents, &mut sizes);
    let count = usize::from(sizes[0]);
    if copy.len() < 2 + 2 * count {
        return 0;
    }
    let mut heads = [as_word(m); NODES];
    let mut nexts = [0u16; NODES];
    chain(&lows, m, &mut heads, &mut nexts);
    let news = numbers(parents, &sizes, &bits, &heads, &nexts, usize::from(k));
    let above = parent_numbers(parents, &bits, &news);
    write_words(&at, &bits, &news, &above, m, k, count, copy);
    2 + 2 * count
}

// The same of a table with m nodes.
fn table_copy(table: &[u16], m: usize, ranks: &[u16; TIPS], k: u16, copy: &mut [u16]) -> usize
    requires { RootedTable table.now m ranks.now k }
    ensures { TableCopied table.now m ranks.now k copy.old copy.new result }
{
    rooted_copy(&table[2..2 + m], &table[2 + m..], ranks, k, copy)
}

// The kept part of a table with m nodes that was checked, under marks that keep k labels: re-rooted at the smallest of them, and
// copied. How many words the copy has, or 0 where the slice has fewer.
fn kept_copy(table: &[u16], marks: &[u8], m: usize, k: u16, copy: &mut [u16]) -> usize
    requires { KeptTable table.now marks.now m k }
    ensures { CopiedInto (canonical_copy marks.now table.now) copy.old copy.new result }
{
    let x = first_kept(marks);
    let mut words = [0u16; TABLE_WORDS];
    reroot(table, as_word(x), &mut words);
    let ranks = label_ranks(marks, x, k);
    table_copy(&words[..2 + 2 * m], m, &ranks, k, copy)
}

// A refusal tells no word.
fn refused(number: u16) -> CopyAnswer
    ensures { result ≡ record { refusal = number; words = 0 } }
{
    CopyAnswer {
        refusal: number,
        words: 0,
    }
}

// The kept part of a tree as a table of its own: kept labels by rank, the smallest as node 0, no pass-through node and no empty
// branch, nodes numbered depth first, children by their smallest label. The cells past it stay. The tree's order, then 32, 35
// and 36.
pub fn canonical_copy(table: &[u16], marks: &[u8], copy: &mut [u16]) -> CopyAnswer
    ensures { (result ≡ copy_answer marks.now table.now (length copy.old))
        × (copy.new ≡ after_copy marks.now table.now copy.old)
        × Copied marks.now table.now copy.old result copy.new }
{
    let answer = check(table);
    let Ok(tree) = answer else {
        return refused(refusal_of(answer));
    };
    let kept = match check_marks(marks, tree.tips) {
        Ok(kept) => kept,
        Err(refusal) => return refused(u16::from(refusal)),
    };
    if kept < 2 {
        return refused(u16::from(Refusal::FewKept));
    }
    let words = kept_copy(table, marks, usize::from(tree.nodes), kept, copy);
    if words == 0 {
        return refused(u16::from(Refusal::ShortCopy));
    }
    CopyAnswer {
        refusal: 0,
        words: as_word(words),
    }
}
