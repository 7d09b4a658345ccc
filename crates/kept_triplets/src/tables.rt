// The triplet table of two trees over the kept labels.
ghost use Rattle.std.specs.Prelude.{◌≡◌};
ghost use Rattle.triplets.specs.TripletAnswer.{refused_triplets};
ghost use Rattle.triplets.specs.lemmas.FormedTriplets.{TripletsFit, formed_triplets};
ghost use Rattle.kept_triplets.specs.KeptAnswer.{kept_answer};

use super::totals::kept_sums;
use counting::sets_of_three;
use marks::check_marks;
use pair_check::check_pair;
use tree_check::refusal_of;
use triplets::TripletTable;

// The five counts, from the sums over edges and over pairs of edges.
// triplets has one like it: a public function could not ask that the sums fit.
fn form_table(first: u64, second: u64, alike: u64, apart: u64, n: u16) -> TripletTable
    requires { TripletsFit n first second alike apart }
    ensures { result ≡ formed_triplets n first second alike apart }
{
    let a = alike / 2;
    let b = apart;
    let c = first / 2 - a - b;
    let d = second / 2 - a - b;
    let e = sets_of_three(n) - a - b - c - d;
    let distance = b + c + d;
    TripletTable {
        refusal: 0,
        a,
        b,
        c,
        d,
        e,
        distance,
    }
}

// one_label has one like it, of another struct.
fn refused(number: u16) -> TripletTable
    ensures { result ≡ refused_triplets number }
{
    TripletTable {
        refusal: number,
        a: 0,
        b: 0,
        c: 0,
        d: 0,
        e: 0,
        distance: 0,
    }
}

// The triplets of the kept labels other than 0, under the outgroup. It takes no work.
pub fn kept_triplets(first: &[u16], second: &[u16], marks: &[u8]) -> TripletTable
    ensures { result ≡ kept_answer first.now second.now marks.now }
{
    let answer = check_pair(first, second);
    let Ok(pair) = answer else {
        return refused(refusal_of(answer));
    };
    if let Err(refusal) = check_marks(marks, pair.tips) {
        return refused(u16::from(refusal));
    }
    let m = pair.rows + 1;
    let k = pair.columns + 1;
    let sums = kept_sums(first, second, marks, usize::from(pair.tips), m, k);
    form_table(
        sums.first,
        sums.second,
        sums.alike,
        sums.apart,
        sums.others + 1,
    )
}
