// The quartet table of two trees.
ghost use Rattle.std.specs.Prelude.{◌≡◌, ◌≤◌, length};
ghost use Rattle.sums.specs.Fours.{fours};
ghost use Rattle.tree_pairs.specs.Crossings.{after_crossings};
ghost use Rattle.quartets.specs.lemmas.FormedTable.{TableFits, formed};
ghost use Rattle.quartets.specs.QuartetAnswer.{DemandThree, quartet_answer};

use claims::claim_sums;
use counting::sets_of_four;
use pair_check::check_work;
use table_words::Cell;
use tree_check::refusal_of;

// The number; the same butterfly in both trees, different butterflies, a butterfly in the first only, in the second
// only, a star in both; and the distance B + C + D.
// No Result: a refused call gives its number, and zeros (docs/SPECIFICATION.md, 7.2).
#[derive(Clone, Copy)]
pub struct QuartetTable {
    pub refusal: u16,
    pub a: u64,
    pub b: u64,
    pub c: u64,
    pub d: u64,
    pub e: u64,
    pub distance: u64,
}

// The five formulas, from the four claim sums and the number n of counted labels alone.
fn form_table(first: u64, second: u64, same: u64, different: u64, n: u16) -> QuartetTable
    requires { TableFits n first second same different }
    ensures { result ≡ formed n first second same different }
{
    let a = same / 2;
    let b = different / 4;
    let c = first / 2 - a - b;
    let d = second / 2 - a - b;
    let all = sets_of_four(n);
    let e = all - a - b - c - d;
    let distance = b + c + d;
    QuartetTable {
        refusal: 0,
        a,
        b,
        c,
        d,
        e,
        distance,
    }
}

// The quartet table of the kept labels, with the crossings in the cells afterwards.
pub fn quartet_table(first: &[u16], second: &[u16], marks: &[u8], work: &mut [Cell]) -> QuartetTable
    ensures { (result ≡ quartet_answer first.now second.now marks.now (length work.old))
        × DemandThree first.now second.now marks.now (length work.old) result
        × (work.new
        ≡ after_crossings first.now second.now marks.now work.old) }
{
    let answer = check_work(first, second, marks, work.len());
    let Ok(pair) = answer else {
        return QuartetTable {
            refusal: refusal_of(answer),
            a: 0,
            b: 0,
            c: 0,
            d: 0,
            e: 0,
            distance: 0,
        };
    };
    let sums = claim_sums(first, second, marks, work);
    form_table(
        sums.first,
        sums.second,
        sums.same,
        sums.different,
        pair.counted,
    )
}
