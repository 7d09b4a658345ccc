// The weighted distance of two trees.
ghost use Rattle.std.specs.Prelude.{◌≡◌, ◌+◌, ◌*◌, ◌≤◌, length};
ghost use Rattle.tree_check.specs.Numbers.{answer_by};
ghost use Rattle.tree_check.specs.Refusals.{refusal};
ghost use Rattle.tree_check.specs.Table.{tips};
ghost use Rattle.counting.specs.Kept.{kept};
ghost use Rattle.counting.specs.declared.Case.TheVariants.{B, C, D};
ghost use Rattle.counting.specs.Cases.{quartets as cases_quartets};
ghost use Rattle.pair_check.specs.PairOrder.{MarkedPair};
ghost use Rattle.tree_pairs.specs.Crossings.{crossed_kept};
ghost use Rattle.weights.specs.Weights.{over256, numerator_of};
ghost use Rattle.weights.specs.WeightedAnswer.{fraction_order, refused_weight, weighted_answer, after_weighted, WeightTold};

use super::weight::{Weight, fraction_of, numerator_of, weigh};
use pair_check::check_work;
use quartets::{Refusal, quartet_table, refusal_of};
use table_words::Cell;

// The number; and B + p(C + D).
// No Result: a refused call gives its number, and zeros (docs/SPECIFICATION.md, 7.2).
#[derive(Clone, Copy)]
pub struct WeightedDistance {
    pub refusal: u16,
    pub distance: f64,
}

// A refusal answers zero.
fn refused(number: u16) -> WeightedDistance
    ensures { result ≡ refused_weight number }
{
    WeightedDistance {
        refusal: number,
        distance: 0.0,
    }
}

// Refused if the fraction is no k/256.
fn check_fraction(p: f64) -> Result<(), Refusal>
    ensures { result ≡ answer_by (refusal (fraction_order p)) tt }
{
    if numerator_of(p) == 257 {
        return Err(Refusal::Fraction);
    }
    Ok(())
}

// The weighted distance of a pair with cells enough, by a fraction that is a k/256.
fn weigh_table(first: &[u16], second: &[u16], marks: &[u8], work: &mut [Cell], p: f64) -> f64
    requires { MarkedPair first.now second.now marks.now (length work.old) × (numerator_of p ≤ 256) }
    ensures { (result
        ≡ over256
        (256 * cases_quartets (kept marks.now (tips first.now)) first.now second.now B
        + numerator_of p
        * (cases_quartets (kept marks.now (tips first.now)) first.now second.now C
        + cases_quartets (kept marks.now (tips first.now)) first.now second.now D)))
        × (work.new
        ≡ crossed_kept first.now second.now marks.now work.old) }
{
    let table = quartet_table(first, second, marks, work);
    weigh(table.b, table.c + table.d, p)
}

// The weighted distance over the kept labels, with the crossings in the cells afterwards. The fraction is judged before any
// cell is written.
pub fn weighted_distance(
    first: &[u16],
    second: &[u16],
    marks: &[u8],
    work: &mut [Cell],
    weight: Weight,
) -> WeightedDistance
    ensures { (result ≡ weighted_answer first.now second.now marks.now (length work.old) weight)
        × (work.new
        ≡ after_weighted first.now second.now marks.now weight work.old)
        × WeightTold first.now second.now marks.now (length work.old) weight result }
{
    let answer = check_work(first, second, marks, work.len());
    let Ok(_) = answer else {
        return WeightedDistance {
            refusal: refusal_of(answer),
            distance: 0.0,
        };
    };
    let p = fraction_of(weight);
    if let Err(refusal) = check_fraction(p) {
        return refused(u16::from(refusal));
    }
    WeightedDistance {
        refusal: 0,
        distance: weigh_table(first, second, marks, work, p),
    }
}
