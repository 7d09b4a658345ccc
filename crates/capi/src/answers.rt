// The answers as plain structs, laid out as in C, and each from a library's answer. The C interface has the number beside the values.
ghost use Rattle.std.specs.Prelude.{◌≡◌};
ghost use Rattle.trees.specs.Witness.{is_edge, witness_number};
ghost use Rattle.counting.specs.Cases.{case_number};
ghost use Rattle.capi.specs.PlainAnswers.{plain_beyond, plain_centre, plain_topology, plain_claims};
ghost use Rattle.capi.specs.PlainAnswers.{plain_table, plain_splits, plain_triplets, plain_weighted, plain_evidence};
ghost use Rattle.capi.specs.PlainLabels.{plain_five};
ghost use Rattle.capi.specs.PlainTables.{plain_copy};
ghost use Rattle.capi.specs.PlainExchanges.{plain_tallies, plain_distance};
ghost use Rattle.capi.specs.PlainLists.{plain_nearest};
ghost use Rattle.capi.specs.PlainViews.{plain_view};

use exchange_distances::ExchangeDistance;
use one_label::FiveAnswer;
use quartets::{Case, ClaimSums, QuartetTable, SplitCounts, TripletTable};
use trees::{PartBeyond, Topology, Witness};
use weights::WeightedDistance;

// The number; the first cell of the labels beyond an edge, and how many they are.
#[repr(C)]
#[derive(Clone, Copy)]
pub struct BeyondAnswer {
    pub refusal: u16,
    pub start: u16,
    pub labels: u16,
}

impl From<PartBeyond> for BeyondAnswer {
    ghost from_gives = { λ part plain. plain ≡ plain_beyond part };

    fn from(part: PartBeyond) -> BeyondAnswer {
        BeyondAnswer {
            refusal: part.refusal,
            start: part.start,
            labels: part.count,
        }
    }
}

// The number; the node, or 0.
#[repr(C)]
#[derive(Clone, Copy)]
pub struct CentreAnswer {
    pub refusal: u16,
    pub node: u16,
}

impl From<trees::CentreAnswer> for CentreAnswer {
    ghost from_gives = { λ answer plain. plain ≡ plain_centre answer };

    fn from(answer: trees::CentreAnswer) -> CentreAnswer {
        CentreAnswer {
            refusal: answer.refusal,
            node: answer.node,
        }
    }
}

// The number; 1 for a butterfly and 0 for a star; the partner of the smallest label, or 0.
#[repr(C)]
#[derive(Clone, Copy)]
pub struct TopologyAnswer {
    pub refusal: u16,
    pub butterfly: u16,
    pub partner: u16,
}

impl From<trees::TopologyAnswer> for TopologyAnswer {
    ghost from_gives = { λ answer plain. plain ≡ plain_topology answer };

    fn from(answer: trees::TopologyAnswer) -> TopologyAnswer {
        match answer.topology {
            Topology::Butterfly(partner) => TopologyAnswer {
                refusal: answer.refusal,
                butterfly: 1,
                partner,
            },
            Topology::Star => TopologyAnswer {
                refusal: answer.refusal,
                butterfly: 0,
                partner: 0,
            },
        }
    }
}

// The number; S, S', S2 and S3.
#[repr(C)]
#[derive(Clone, Copy)]
pub struct ClaimSumsAnswer {
    pub refusal: u16,
    pub first: u64,
    pub second: u64,
    pub same: u64,
    pub different: u64,
}

impl From<ClaimSums> for ClaimSumsAnswer {
    ghost from_gives = { λ sums plain. plain ≡ plain_claims sums };

    fn from(sums: ClaimSums) -> ClaimSumsAnswer {
        ClaimSumsAnswer {
            refusal: sums.refusal,
            first: sums.first,
            second: sums.second,
            same: sums.same,
            different: sums.different,
        }
    }
}

// The number; A to E and B + C + D.
#[repr(C)]
#[derive(Clone, Copy)]
pub struct QuartetTableAnswer {
    pub refusal: u16,
    pub a: u64,
    pub b: u64,
    pub c: u64,
    pub d: u64,
    pub e: u64,
    pub distance: u64,
}

impl From<QuartetTable> for QuartetTableAnswer {
    ghost from_gives = { λ table plain. plain ≡ plain_table table };

    fn from(table: QuartetTable) -> QuartetTableAnswer {
        QuartetTableAnswer {
            refusal: table.refusal,
            a: table.a,
            b: table.b,
            c: table.c,
            d: table.d,
            e: table.e,
            distance: table.distance,
        }
    }
}

// The number; the splits of the first tree, of the second, of both; and the Robinson-Foulds distance.
#[repr(C)]
#[derive(Clone, Copy)]
pub struct SplitCountsAnswer {
    pub refusal: u16,
    pub first: u64,
    pub second: u64,
    pub common: u64,
    pub distance: u64,
}

impl From<SplitCounts> for SplitCountsAnswer {
    ghost from_gives = { λ counts plain. plain ≡ plain_splits counts };

    fn from(counts: SplitCounts) -> SplitCountsAnswer {
        SplitCountsAnswer {
            refusal: counts.refusal,
            first: u64::from(counts.first),
            second: u64::from(counts.second),
            common: u64::from(counts.common),
            distance: u64::from(counts.distance),
        }
    }
}

// The number; A to E and B + C + D of the triplets.
#[repr(C)]
#[derive(Clone, Copy)]
pub struct TripletTableAnswer {
    pub refusal: u16,
    pub a: u64,
    pub b: u64,
    pub c: u64,
    pub d: u64,
    pub e: u64,
    pub distance: u64,
}

impl From<TripletTable> for TripletTableAnswer {
    ghost from_gives = { λ table plain. plain ≡ plain_triplets table };

    fn from(table: TripletTable) -> TripletTableAnswer {
        TripletTableAnswer {
            refusal: table.refusal,
            a: table.a,
            b: table.b,
            c: table.c,
            d: table.d,
            e: table.e,
            distance: table.distance,
        }
    }
}

// The number; and the weighted distance.
#[repr(C)]
#[derive(Clone, Copy)]
pub struct WeightedDistanceAnswer {
    pub refusal: u16,
    pub distance: f64,
}

impl From<WeightedDistance> for WeightedDistanceAnswer {
    ghost from_gives = { λ answer plain. plain ≡ plain_weighted answer };

    fn from(answer: WeightedDistance) -> WeightedDistanceAnswer {
        WeightedDistanceAnswer {
            refusal: answer.refusal,
            distance: answer.distance,
        }
    }
}

// The number; 0 to 4 for the cases A to E; for each tree 1 and its edge, or 0 and its meeting node.
#[repr(C)]
#[derive(Clone, Copy)]
pub struct EvidenceAnswer {
    pub refusal: u16,
    pub which: u16,
    pub first_edge: u16,
    pub first_number: u16,
    pub second_edge: u16,
    pub second_number: u16,
}

// The number of a case: 0 to 4 for A to E.
fn which_of(which: Case) -> u16
    ensures { result ≡ case_number which }
{
    match which {
        Case::A => 0,
        Case::B => 1,
        Case::C => 2,
        Case::D => 3,
        Case::E => 4,
    }
}

// 1 and the edge, or 0 and the meeting node.
#[derive(Clone, Copy)]
struct PlainWitness {
    edge: u16,
    number: u16,
}

impl From<Witness> for PlainWitness {
    ghost from_gives = { λ witness plain. (plain.edge ≡ is_edge witness) × (plain.number ≡ witness_number witness) };

    fn from(witness: Witness) -> PlainWitness {
        match witness {
            Witness::Edge(i) => PlainWitness { edge: 1, number: i },
            Witness::Meet(v) => PlainWitness { edge: 0, number: v },
        }
    }
}

impl From<quartets::EvidenceAnswer> for EvidenceAnswer {
    ghost from_gives = { λ answer plain. plain ≡ plain_evidence answer };

    fn from(answer: quartets::EvidenceAnswer) -> EvidenceAnswer {
        let here = PlainWitness::from(answer.first);
        let there = PlainWitness::from(answer.second);
        EvidenceAnswer {
            refusal: answer.refusal,
            which: which_of(answer.which),
            first_edge: here.edge,
            first_number: here.number,
            second_edge: there.edge,
            second_number: there.number,
        }
    }
}

// The number; A to E: of the sets that hold a label, or once a label is struck or restored.
#[repr(C)]
#[derive(Clone, Copy)]
pub struct FiveCountsAnswer {
    pub refusal: u16,
    pub a: u64,
    pub b: u64,
    pub c: u64,
    pub d: u64,
    pub e: u64,
}

impl From<FiveAnswer> for FiveCountsAnswer {
    ghost from_gives = { λ answer plain. plain ≡ plain_five answer };

    fn from(answer: FiveAnswer) -> FiveCountsAnswer {
        FiveCountsAnswer {
            refusal: answer.refusal,
            a: answer.a,
            b: answer.b,
            c: answer.c,
            d: answer.d,
            e: answer.e,
        }
    }
}

// The number; and how many words the copy has.
#[repr(C)]
#[derive(Clone, Copy)]
pub struct CopyAnswer {
    pub refusal: u16,
    pub words: u16,
}

impl From<canonical_copy::CopyAnswer> for CopyAnswer {
    ghost from_gives = { λ answer plain. plain ≡ plain_copy answer };

    fn from(answer: canonical_copy::CopyAnswer) -> CopyAnswer {
        CopyAnswer {
            refusal: answer.refusal,
            words: answer.words,
        }
    }
}

// The number; how many exchanges fall in each tally.
#[repr(C)]
#[derive(Clone, Copy)]
pub struct ExchangeAnswer {
    pub refusal: u16,
    pub tallies: [u64; 11],
}

impl From<exchange_tallies::ExchangeAnswer> for ExchangeAnswer {
    ghost from_gives = { λ answer plain. plain ≡ plain_tallies answer };

    fn from(answer: exchange_tallies::ExchangeAnswer) -> ExchangeAnswer {
        let tallies = answer.tallies;
        ExchangeAnswer {
            refusal: answer.refusal,
            tallies,
        }
    }
}

// The number; the distance of an exchange.
#[repr(C)]
#[derive(Clone, Copy)]
pub struct ExchangeDistanceAnswer {
    pub refusal: u16,
    pub distance: u64,
}

impl From<ExchangeDistance> for ExchangeDistanceAnswer {
    ghost from_gives = { λ answer plain. plain ≡ plain_distance answer };

    fn from(answer: ExchangeDistance) -> ExchangeDistanceAnswer {
        ExchangeDistanceAnswer {
            refusal: answer.refusal,
            distance: answer.distance,
        }
    }
}

// The number; the position of the tree nearest to all, from 0; its summed distance.
#[repr(C)]
#[derive(Clone, Copy)]
pub struct NearestAnswer {
    pub refusal: u16,
    pub position: u16,
    pub sum: u64,
}

impl From<median_tree::NearestAnswer> for NearestAnswer {
    ghost from_gives = { λ answer plain. plain ≡ plain_nearest answer };

    fn from(answer: median_tree::NearestAnswer) -> NearestAnswer {
        NearestAnswer {
            refusal: answer.refusal,
            position: answer.position,
            sum: answer.sum,
        }
    }
}

// The number; how many labels are visible; A to E and B + C + D over them; and their splits: of the first tree, of the second, of
// both, and the Robinson-Foulds distance.
#[repr(C)]
#[derive(Clone, Copy)]
pub struct ViewAnswer {
    pub refusal: u16,
    pub visible: u64,
    pub a: u64,
    pub b: u64,
    pub c: u64,
    pub d: u64,
    pub e: u64,
    pub distance: u64,
    pub first_splits: u64,
    pub second_splits: u64,
    pub common_splits: u64,
    pub robinson_foulds: u64,
}

impl From<views::ViewAnswer> for ViewAnswer {
    ghost from_gives = { λ answer plain. plain ≡ plain_view answer };

    fn from(answer: views::ViewAnswer) -> ViewAnswer {
        ViewAnswer {
            refusal: answer.refusal,
            visible: answer.visible,
            a: answer.a,
            b: answer.b,
            c: answer.c,
            d: answer.d,
            e: answer.e,
            distance: answer.distance,
            first_splits: answer.first_splits,
            second_splits: answer.second_splits,
            common_splits: answer.common_splits,
            robinson_foulds: answer.robinson_foulds,
        }
    }
}
