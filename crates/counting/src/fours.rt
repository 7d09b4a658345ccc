// How many sets of four labels there are.
ghost use Rattle.std.specs.Prelude.{◌≡◌, ◌≤◌};
ghost use Rattle.sums.specs.Fours.{fours};

// The most labels of a tree.
const FEW: u16 = 256;

// The sets of four of k labels of a tree: none below four, where k - 3 would go below 0; 4195023360 is the largest product,
// at 256, and fits 32 bits.
fn few_sets(k: u32) -> u32
    requires { k ≤ 256 }
    ensures { result ≡ fours k }
{
    if k < 4 {
        return 0;
    }
    k * (k - 1) * (k - 2) * (k - 3) / 24
}

// The sets of four of k labels, also of more than a tree has.
pub fn sets_of_four(k: u16) -> u64
    ensures { result ≡ fours k }
{
    if k <= FEW {
        return u64::from(few_sets(u32::from(k)));
    }
    let n = u64::from(k);
    n * (n - 1) * (n - 2) * (n - 3) / 24
}
