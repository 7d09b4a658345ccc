// The weight of a star against a butterfly.
ghost use Rattle.std.specs.Prelude.{◌≡◌, ◌+◌, ◌*◌, ◌≤◌};
ghost use Rattle.weights.specs.Weights.{over256, p_of, numerator_of};

// Nothing, full, or a part with its fraction.
// An enum of its own: its form is asked for (docs/SPECIFICATION.md, 12).
#[derive(Clone, Copy)]
pub enum Weight {
    None,
    Full,
    Part(f64),
}

// The weight as a fraction.
pub(crate) fn fraction_of(weight: Weight) -> f64
    ensures { result ≡ p_of weight }
{
    match weight {
        Weight::None => 0.0,
        Weight::Full => 1.0,
        Weight::Part(fraction) => fraction,
    }
}

// The k of 0 to 256 for which p is k/256, or 257.
pub(crate) fn numerator_of(p: f64) -> u32
    ensures { result ≡ numerator_of p }
{
    for k in 0..257 {
        if p == (k as f64) / 256.0 {
            return k;
        }
    }
    257
}

// b + p · stars, and exactly that.
pub(crate) fn weigh(b: u64, stars: u64, p: f64) -> f64
    requires { (b ≤ 174792640) × (stars ≤ 174792640) × (numerator_of p ≤ 256) }
    ensures { result ≡ over256 (256 * b + numerator_of p * stars) }
{
    (b as f64) + p * (stars as f64)
}
