// The claim sums of two trees.
ghost use Rattle.std.specs.Prelude.{◌≡◌, length};
ghost use Rattle.tree_pairs.specs.Crossings.{after_crossings};
ghost use Rattle.claims.specs.lemmas.SumsOf.{Summable, summed};
ghost use Rattle.claims.specs.ClaimAnswer.{claim_answer};

use super::node_sums::tree_sum;
use super::pair_sums::pair_sums;
use code_lists::list_codes;
use table_words::{CODES, Cell, STARTS, TIPS};
use tree_check::refusal_of;
use tree_pairs::cross_pair;

// The number; S, S', S2 and S3.
// No Result: a refused call gives its number, and zeros (docs/SPECIFICATION.md, 7.2).
#[derive(Clone, Copy)]
pub struct ClaimSums {
    pub refusal: u16,
    pub first: u64,
    pub second: u64,
    pub same: u64,
    pub different: u64,
}

// The sums over `kept` labels of two trees given by their parents, whose crossings are in the cells.
fn sums_of(
    first_parents: &[u16],
    second_parents: &[u16],
    work: &[Cell],
    kept: u16,
    tips: u16,
) -> ClaimSums
    requires { Summable work.now kept tips first_parents.now second_parents.now }
    ensures { result ≡ summed work.now kept first_parents.now second_parents.now }
{
    let mut first_starts = [0usize; STARTS];
    let mut first_edges = [0usize; CODES];
    list_codes(first_parents, &mut first_starts, &mut first_edges);
    let mut second_starts = [0usize; STARTS];
    let mut second_edges = [0usize; CODES];
    list_codes(second_parents, &mut second_starts, &mut second_edges);
    let mut sizes = [0u16; TIPS];
    let first = tree_sum(
        work,
        second_parents.len() - 1,
        kept,
        first_parents,
        &first_starts,
        &first_edges,
        &mut sizes,
    );
    let second = tree_sum(
        work,
        1,
        kept,
        second_parents,
        &second_starts,
        &second_edges,
        &mut sizes,
    );
    let pairs = pair_sums(
        work,
        kept,
        tips,
        first_parents,
        &first_starts,
        &first_edges,
        second_parents,
        &second_starts,
        &second_edges,
    );
    ClaimSums {
        refusal: 0,
        first: first / 2,
        second: second / 2,
        same: pairs.s2 / 2,
        different: pairs.s3,
    }
}

// The claim sums over the kept labels, with the crossings in the cells afterwards.
// split_counts and triplet_table begin alike; each gives zeros of a struct of its own.
pub fn claim_sums(first: &[u16], second: &[u16], marks: &[u8], work: &mut [Cell]) -> ClaimSums
    ensures { (result ≡ claim_answer first.now second.now marks.now (length work.old))
        × (work.new
        ≡ after_crossings first.now second.now marks.now work.old) }
{
    let answer = cross_pair(first, second, marks, work);
    let Ok(pair) = answer else {
        return ClaimSums {
            refusal: refusal_of(answer),
            first: 0,
            second: 0,
            same: 0,
            different: 0,
        };
    };
    let m = pair.rows + 1;
    let k = pair.columns + 1;
    sums_of(
        &first[2..2 + m],
        &second[2..2 + k],
        work,
        pair.counted,
        pair.tips,
    )
}
