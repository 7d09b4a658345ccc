// What the calls on one label are given, and what they answer.
ghost use Rattle.std.specs.Prelude.{◌≡◌};
ghost use Rattle.one_label.specs.FiveAnswers.{refused_five};
ghost use Rattle.one_label.specs.Changes.{restores as changes_restores};

// What is wished for a label.
#[derive(Clone, Copy)]
pub enum Wish {
    Strike,
    Restore,
}

// The sets of four in each of the five cases.
#[derive(Clone, Copy)]
pub struct FiveCounts {
    pub a: u64,
    pub b: u64,
    pub c: u64,
    pub d: u64,
    pub e: u64,
}

// The number, and the five counts: zeros with a number.
// No Result: a refused call gives its number, and zeros (docs/SPECIFICATION.md, 7.2).
#[derive(Clone, Copy)]
pub struct FiveAnswer {
    pub refusal: u16,
    pub a: u64,
    pub b: u64,
    pub c: u64,
    pub d: u64,
    pub e: u64,
}

// kept_triplets has one like it, of another struct.
pub(crate) fn refused(number: u16) -> FiveAnswer
    ensures { result ≡ refused_five number }
{
    FiveAnswer {
        refusal: number,
        a: 0,
        b: 0,
        c: 0,
        d: 0,
        e: 0,
    }
}

// Whether a wish is to restore.
pub(crate) fn restores(wish: Wish) -> bool
    ensures { result ≡ changes_restores wish }
{
    match wish {
        Wish::Strike => false,
        Wish::Restore => true,
    }
}
