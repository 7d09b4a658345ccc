// What is printed of a comparison.

// S, S', S2 and S3.
#[derive(Clone, Copy)]
pub struct Claims {
    pub first: u64,
    pub second: u64,
    pub same: u64,
    pub different: u64,
}

// The five cases of quartets, A to E.
#[derive(Clone, Copy)]
pub struct Quartets {
    pub a: u64,
    pub b: u64,
    pub c: u64,
    pub d: u64,
    pub e: u64,
}

// The splits of the first tree, of the second, of both; and the Robinson-Foulds distance.
#[derive(Clone, Copy)]
pub struct Splits {
    pub first: u16,
    pub second: u16,
    pub common: u16,
    pub distance: u16,
}

// The five cases of triplets, A to E.
#[derive(Clone, Copy)]
pub struct Triplets {
    pub a: u64,
    pub b: u64,
    pub c: u64,
    pub d: u64,
    pub e: u64,
}

// The refusal, or 0; and what a comparison that is not refused gives.
// No Result: a refused call gives its number, and zeros (docs/SPECIFICATION.md, 7.2).
#[derive(Clone, Copy)]
pub struct Figures {
    pub refusal: u16,
    pub tips: u16,
    pub claims: Claims,
    pub quartets: Quartets,
    pub distance: u64,
    pub splits: Splits,
    pub triplets: Triplets,
}
