// The triplet table of two trees.
ghost use Rattle.std.specs.Prelude.{◌≡◌, length};
ghost use Rattle.tree_pairs.specs.Crossings.{after_all};
ghost use Rattle.triplets.specs.lemmas.FormedTriplets.{TripletsFit, formed_triplets};
ghost use Rattle.triplets.specs.lemmas.TripletsCounted.{Countable, triplets_counted};
ghost use Rattle.triplets.specs.TripletAnswer.{triplet_answer};

use super::edges::edge_terms;
use super::pairs::pair_sums;
use counting::sets_of_three;
use table_words::Cell;
use tree_check::refusal_of;
use tree_pairs::cross_all;

// The number; the triplets resolved alike in both trees, differently, in the first only, in the second only, in neither;
// and the distance B + C + D.
// No Result: a refused call gives its number, and zeros (docs/SPECIFICATION.md, 7.2).
#[derive(Clone, Copy)]
pub struct TripletTable {
    pub refusal: u16,
    pub a: u64,
    pub b: u64,
    pub c: u64,
    pub d: u64,
    pub e: u64,
    pub distance: u64,
}

// The five counts, from the sums over edges and over pairs of edges.
// kept_triplets has one like it: a public function could not ask that the sums fit.
fn form_table(first: u64, second: u64, alike: u64, apart: u64, n: u16) -> TripletTable
    requires { TripletsFit n first second alike apart }
    ensures { result ≡ formed_triplets n first second alike apart }
{
    let a = alike / 2;
    let b = apart;
    let c = first / 2 - a - b;
    let d = second / 2 - a - b;
    let e = sets_of_three(n) - a - b - c - d;
    let distance = b + c + d;
    TripletTable {
        refusal: 0,
        a,
        b,
        c,
        d,
        e,
        distance,
    }
}

// The counts of two trees given by their parents, whose crossings are in the cells.
fn count_triplets(
    first_parents: &[u16],
    second_parents: &[u16],
    work: &[Cell],
    n: u16,
) -> TripletTable
    requires { Countable work.now n first_parents.now second_parents.now }
    ensures { result ≡ triplets_counted work.now n first_parents.now second_parents.now }
{
    let first = edge_terms(work, second_parents.len() - 1, first_parents);
    let second = edge_terms(work, 1, second_parents);
    let pairs = pair_sums(work, first_parents, second_parents);
    form_table(first, second, pairs.alike, pairs.apart, n)
}

// The triplet table of all labels, with their crossings in the cells afterwards.
pub fn triplet_table(first: &[u16], second: &[u16], work: &mut [Cell]) -> TripletTable
    ensures { (result ≡ triplet_answer first.now second.now (length work.old))
        × (work.new ≡ after_all first.now second.now work.old) }
{
    let answer = cross_all(first, second, work);
    let Ok(pair) = answer else {
        return TripletTable {
            refusal: refusal_of(answer),
            a: 0,
            b: 0,
            c: 0,
            d: 0,
            e: 0,
            distance: 0,
        };
    };
    let m = pair.rows + 1;
    let k = pair.columns + 1;
    count_triplets(&first[2..2 + m], &second[2..2 + k], work, pair.tips)
}
