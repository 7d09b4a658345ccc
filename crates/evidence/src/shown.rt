// The case of four labels in two trees, and what shows it in each.
ghost use Rattle.std.specs.Prelude.{◌≡◌};
ghost use Rattle.counting.specs.Cases.{case_of};
ghost use Rattle.evidence.specs.EvidenceAnswer.{refused_evidence, evidence_answer, EvidenceTold};
ghost use Rattle.evidence.specs.lemmas.EvidenceFound.{two_butterflies};

use counting::Case;
use pair_check::check_pair;
use tree_check::refusal_of;
use trees::{Topology, Witness, witness_of};

// The number; the case; and for each tree the lowest-numbered edge that parts the four two and two, or the node where all
// their paths meet.
// No Result: a refused call gives its number, and zeros (docs/SPECIFICATION.md, 7.2).
#[derive(Clone, Copy)]
pub struct EvidenceAnswer {
    pub refusal: u16,
    pub which: Case,
    pub first: Witness,
    pub second: Witness,
}

// The case of two butterflies, by the partners that they name.
fn butterflies(p: u16, q: u16) -> Case
    ensures { result ≡ two_butterflies p q }
{
    if p == q {
        return Case::A;
    }
    Case::B
}

// The case of two topologies.
fn case_of(first: Topology, second: Topology) -> Case
    ensures { result ≡ case_of first second }
{
    match first {
        Topology::Butterfly(p) => match second {
            Topology::Butterfly(q) => butterflies(p, q),
            Topology::Star => Case::C,
        },
        Topology::Star => match second {
            Topology::Butterfly(_) => Case::D,
            Topology::Star => Case::E,
        },
    }
}

// A refusal shows case E, and meeting node 0 for both trees.
fn refused(number: u16) -> EvidenceAnswer
    ensures { result ≡ refused_evidence number }
{
    EvidenceAnswer {
        refusal: number,
        which: Case::E,
        first: Witness::Meet(0),
        second: Witness::Meet(0),
    }
}

// The case of four labels and what shows it. The two tables come first, then the labels; no work is lent, so nothing asks
// for its cells.
pub fn evidence(first: &[u16], second: &[u16], a: u16, b: u16, c: u16, d: u16) -> EvidenceAnswer
    ensures { (result ≡ evidence_answer first.now second.now a b c d)
        × EvidenceTold first.now second.now a b c d result }
{
    let answer = check_pair(first, second);
    let Ok(_) = answer else {
        return refused(refusal_of(answer));
    };
    let one = witness_of(first, a, b, c, d);
    if one.refusal != 0 {
        return refused(one.refusal);
    }
    let other = witness_of(second, a, b, c, d);
    let here = one.topology;
    let there = other.topology;
    let by = one.witness;
    let beside = other.witness;
    EvidenceAnswer {
        refusal: 0,
        which: case_of(here, there),
        first: by,
        second: beside,
    }
}
