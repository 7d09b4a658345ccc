// Every set of three and of four labels below 16. Each set has a code, whose digits to the base 16 are its labels in
// rising order; a set of three has a 0 in front.
use super::cells::plus;
use super::print;
use trees::Topology;

// The labels of a code.
#[derive(Clone, Copy)]
struct Four {
    w: u16,
    x: u16,
    y: u16,
    z: u16,
}

fn four_at(code: u16) -> Four {
    Four {
        w: code / 4096,
        x: code / 256 % 16,
        y: code / 16 % 16,
        z: code % 16,
    }
}

// Whether the last three are labels below n in rising order.
fn rises(four: Four, n: u16) -> bool {
    (four.x < four.y) & (four.y < four.z) & (four.z < n)
}

// The tips of a table, or 0 where it is refused.
pub(crate) fn tips_of(table: &[u16]) -> u16 {
    let Ok(tree) = trees::check(table) else {
        return 0;
    };
    tree.tips
}

// The partner of the smallest label, or 0 for a star: the smallest label is nobody's partner.
fn partner_in(table: &[u16], four: Four) -> u16 {
    let answer = trees::topology_of(table, four.w, four.x, four.y, four.z);
    let topology = answer.topology;
    match topology {
        Topology::Butterfly(partner) => partner,
        Topology::Star => 0,
    }
}

// The centre of a set of three, or the partner of a set of four.
fn print_set(size: u16, table: &[u16], n: u16, four: Four) {
    if rises(four, n) {
        if size == 3 {
            if four.w == 0 {
                print::number(trees::centre(table, four.x, four.y, four.z).node);
            }
        } else {
            if four.w < four.x {
                print::number(partner_in(table, four));
            }
        }
    }
}

// Every set of that size, three or four, of a table's labels below 16.
pub(crate) fn print_sets(name: &[u8], size: u16, table: &[u16]) {
    let n = tips_of(table);
    print::name(name);
    for code in 0..65535 {
        print_set(size, table, n, four_at(code));
    }
}

// The place of the case in A B C D E, from the partner in each tree.
fn place_of(first: u16, second: u16) -> usize {
    if first == 0 {
        if second == 0 {
            return 4;
        }
        return 3;
    }
    if second == 0 {
        return 2;
    }
    if first == second {
        return 0;
    }
    1
}

pub(crate) fn one_more(counts: &mut [u64; 9], place: usize) {
    if place < 9 {
        counts[place] = plus(counts[place], 1);
    }
}

// The place of the case of four labels; 9, which is not counted, where they are no set of labels below n.
fn place_in(first: &[u16], second: &[u16], n: u16, four: Four) -> usize {
    if (four.w < four.x) & rises(four, n) {
        place_of(partner_in(first, four), partner_in(second, four))
    } else {
        9
    }
}

// The enumerator: every set of four of n labels, at most 16, is asked for its topology in both trees, and counted by
// its case, A B C D E. It knows nothing of claims.
pub(crate) fn count(first: &[u16], second: &[u16], n: u16, counts: &mut [u64; 9]) {
    for code in 0..65535 {
        one_more(counts, place_in(first, second, n, four_at(code)));
    }
}
