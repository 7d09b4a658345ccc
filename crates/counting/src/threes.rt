// How many sets of three labels there are without the outgroup's.
ghost use Rattle.std.specs.Prelude.{◌≡◌, ◌-◌};
ghost use Rattle.sums.specs.theorems.ThreesLaws.{threes};

// The sets of three of the labels 1 to n - 1.
pub fn sets_of_three(n: u16) -> u64
    ensures { result ≡ threes (n - 1) }
{
    if n < 4 {
        return 0;
    }
    let n = u64::from(n);
    (n - 1) * (n - 2) * (n - 3) / 6
}
