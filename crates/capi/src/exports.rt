// The exported functions. A slice is a pointer to its elements, then their number.
ghost use Rattle.std.specs.Prelude.{◌≡◌, length};
ghost use Rattle.tree_check.specs.Refusals.{refusal};
ghost use Rattle.tree_check.specs.TreeOrder.{tree_order};
ghost use Rattle.walks.specs.WalkOrders.{walk_order};
ghost use Rattle.walks.specs.Walk.{after_walk, place_beyond};
ghost use Rattle.trees.specs.Centre.{centre_answer};
ghost use Rattle.trees.specs.Topology.{topology_answer};
ghost use Rattle.pair_check.specs.PairOrder.{pair_order};
ghost use Rattle.evidence.specs.EvidenceAnswer.{evidence_answer};
ghost use Rattle.tree_pairs.specs.Crossings.{after_crossings, after_all};
ghost use Rattle.splits.specs.SplitAnswer.{split_answer};
ghost use Rattle.claims.specs.ClaimAnswer.{claim_answer};
ghost use Rattle.quartets.specs.QuartetAnswer.{DemandThree, quartet_answer};
ghost use Rattle.triplets.specs.TripletAnswer.{triplet_answer};
ghost use Rattle.weights.specs.WeightedAnswer.{weighted_answer, after_weighted};
ghost use Rattle.capi.specs.PlainAnswers.{plain_beyond, plain_centre, plain_topology, plain_claims};
ghost use Rattle.capi.specs.PlainAnswers.{plain_table, library_table, plain_splits, plain_triplets};
ghost use Rattle.capi.specs.PlainAnswers.{weight_of, plain_weighted, plain_evidence};

use super::answers::{
    BeyondAnswer, CentreAnswer, ClaimSumsAnswer, EvidenceAnswer, QuartetTableAnswer,
    SplitCountsAnswer, TopologyAnswer, TripletTableAnswer, WeightedDistanceAnswer,
};
use quartets::{claim_sums, crossings, evidence, quartet_table, split_counts, triplet_table};
use table_words::Cell;
use trees::{centre, check, part_beyond, refusal_of, topology_of, walk};
use weights::{Weight, weighted_distance};

// The tree check's number.
#[unsafe(no_mangle)]
pub extern "C" fn leskwyn_check(table: &[u16]) -> u16
    ensures { result ≡ refusal (tree_order table.now) }
{
    refusal_of(check(table))
}

// The walk's number, and the labels in the lent cells.
#[unsafe(no_mangle)]
pub extern "C" fn leskwyn_walk(table: &[u16], cells: &mut [u16]) -> u16
    ensures { (result ≡ refusal (walk_order table.now (length cells.old)))
        × (cells.new ≡ after_walk table.now cells.old) }
{
    walk(table, cells)
}

// Where the labels beyond an edge stand in a walk of so many cells, by position alone.
#[unsafe(no_mangle)]
pub extern "C" fn leskwyn_beyond(table: &[u16], edge: u16, cells: usize) -> BeyondAnswer
    ensures { result ≡ plain_beyond (place_beyond table.now edge cells) }
{
    BeyondAnswer::from(part_beyond(table, edge, cells))
}

// The centre of three labels.
#[unsafe(no_mangle)]
pub extern "C" fn leskwyn_centre(table: &[u16], a: u16, b: u16, c: u16) -> CentreAnswer
    ensures { result ≡ plain_centre (centre_answer table.now a b c) }
{
    CentreAnswer::from(centre(table, a, b, c))
}

// The topology of four labels.
#[unsafe(no_mangle)]
pub extern "C" fn leskwyn_topology(table: &[u16], a: u16, b: u16, c: u16, d: u16) -> TopologyAnswer
    ensures { result ≡ plain_topology (topology_answer table.now a b c d) }
{
    TopologyAnswer::from(topology_of(table, a, b, c, d))
}

// The pair's number, and the crossings in the lent cells.
#[unsafe(no_mangle)]
pub extern "C" fn leskwyn_crossings(
    first: &[u16],
    second: &[u16],
    marks: &[u8],
    work: &mut [Cell],
) -> u16
    ensures { (result
        ≡ refusal (pair_order first.now second.now marks.now (length work.old)))
        × (work.new
        ≡ after_crossings first.now second.now marks.now work.old) }
{
    crossings(first, second, marks, work)
}

// The claim sums, and the crossings in the lent cells.
#[unsafe(no_mangle)]
pub extern "C" fn leskwyn_claim_sums(
    first: &[u16],
    second: &[u16],
    marks: &[u8],
    work: &mut [Cell],
) -> ClaimSumsAnswer
    ensures { (result ≡ plain_claims (claim_answer first.now second.now marks.now (length work.old)))
        × (work.new
        ≡ after_crossings first.now second.now marks.now work.old) }
{
    ClaimSumsAnswer::from(claim_sums(first, second, marks, work))
}

// The quartet table, and the crossings in the lent cells.
#[unsafe(no_mangle)]
pub extern "C" fn leskwyn_quartet_table(
    first: &[u16],
    second: &[u16],
    marks: &[u8],
    work: &mut [Cell],
) -> QuartetTableAnswer
    ensures { (result ≡ plain_table (quartet_answer first.now second.now marks.now (length work.old)))
        × DemandThree first.now second.now marks.now (length work.old) (library_table result)
        × (work.new
        ≡ after_crossings first.now second.now marks.now work.old) }
{
    QuartetTableAnswer::from(quartet_table(first, second, marks, work))
}

// The split counts, and the crossings in the lent cells.
#[unsafe(no_mangle)]
pub extern "C" fn leskwyn_split_counts(
    first: &[u16],
    second: &[u16],
    marks: &[u8],
    work: &mut [Cell],
) -> SplitCountsAnswer
    ensures { (result ≡ plain_splits (split_answer first.now second.now marks.now (length work.old)))
        × (work.new
        ≡ after_crossings first.now second.now marks.now work.old) }
{
    SplitCountsAnswer::from(split_counts(first, second, marks, work))
}

// The triplet table of all labels, and their crossings in the lent cells.
#[unsafe(no_mangle)]
pub extern "C" fn leskwyn_triplet_table(
    first: &[u16],
    second: &[u16],
    work: &mut [Cell],
) -> TripletTableAnswer
    ensures { (result ≡ plain_triplets (triplet_answer first.now second.now (length work.old)))
        × (work.new ≡ after_all first.now second.now work.old) }
{
    TripletTableAnswer::from(triplet_table(first, second, work))
}

// The weight of a kind: 0 is nothing, 1 full, 2 a part with its fraction. Any other kind is a fraction that is refused.
// By numbers, as the C interface has a weight.
fn weight_of(kind: u16, fraction: f64) -> Weight
    ensures { result ≡ weight_of kind fraction }
{
    if kind == 0 {
        return Weight::None;
    }
    if kind == 1 {
        return Weight::Full;
    }
    if kind == 2 {
        return Weight::Part(fraction);
    }
    Weight::Part(2.0)
}

// The weighted distance, and the crossings in the lent cells.
#[unsafe(no_mangle)]
pub extern "C" fn leskwyn_weighted_distance(
    first: &[u16],
    second: &[u16],
    marks: &[u8],
    work: &mut [Cell],
    kind: u16,
    fraction: f64,
) -> WeightedDistanceAnswer
    ensures { (result
        ≡ plain_weighted (weighted_answer first.now second.now marks.now
        (length work.old) (weight_of kind fraction)))
        × (work.new
        ≡ after_weighted first.now second.now marks.now (weight_of kind fraction)
        work.old) }
{
    let weight = weight_of(kind, fraction);
    WeightedDistanceAnswer::from(weighted_distance(first, second, marks, work, weight))
}

// The case of four labels, and what shows it in each tree.
#[unsafe(no_mangle)]
pub extern "C" fn leskwyn_evidence(
    first: &[u16],
    second: &[u16],
    a: u16,
    b: u16,
    c: u16,
    d: u16,
) -> EvidenceAnswer
    ensures { result ≡ plain_evidence (evidence_answer first.now second.now a b c d) }
{
    EvidenceAnswer::from(evidence(first, second, a, b, c, d))
}
