// The quartet distance of two trees, (0,1,(2,(3,4))) and (0,1,(2,3,4)), printed by a program over the libraries.
#![tactic(auto)]

ghost use Rattle.std.specs.Prelude.{◌≡◌, [], ◌∷◌};
ghost use Rattle.quartets.specs.QuartetAnswer.{quartet_answer};

use quartets::quartet_table;

// The label word of an inner node.
const X: u16 = 65535;

// The distance of two trees on five tips, all kept, whose (m - 1)(m' - 1) is at most 42; 0 for a refused pair.
fn distance(first: &[u16], second: &[u16]) -> u64
    ensures { result ≡ (quartet_answer first.now second.now (1 ∷ 1 ∷ 1 ∷ 1 ∷ 1 ∷ []) 42).distance }
{
    let kept = [1u8; 5];
    let mut work = [0u8; 42];
    let table = quartet_table(first, second, &kept, &mut work);
    table.distance
}

fn main() {
    let p = [5u16, 8, 0, 0, 1, 1, 3, 3, 5, 5, 0, X, 1, X, 2, X, 3, 4];
    let q = [5u16, 7, 0, 0, 1, 1, 3, 3, 3, 0, X, 1, X, 2, 3, 4];
    io::write_all(1, b"distance ");
    io::print_decimal(1, distance(&p, &q));
    io::write_all(1, b"\n");
}
