// What two nodes add to the claim sums.

// What two nodes add to twice S2, and to S3.
#[derive(Clone, Copy)]
pub struct PairTerms {
    pub s2: u64,
    pub s3: u64,
}
