// The place of each kept label in one tree's walk, in the order of the other's; how many lie in a span, and what they weigh.
ghost use Rattle.std.specs.Prelude.{◌≡◌, ℕ, ◌≤◌, ◌<◌, length};
ghost use Rattle.table_words.specs.Sizes.{tips_most};
ghost use Rattle.sums.specs.Bits.{bit};
ghost use Rattle.sums.specs.Sum.{sum};
ghost use Rattle.tree_check.specs.Table.{word};
ghost use Rattle.walks.specs.theorems.SpanLaws.{in_span};
ghost use Rattle.kept_triplets.specs.lemmas.Places.{place_of, Prefixed};
ghost use Rattle.kept_triplets.specs.lemmas.Filling.{PlaceRoom, PlacesListed};
ghost use Rattle.kept_triplets.specs.lemmas.Weighing.{SpanFilled, LowWeights, Weighed};

use marks::is_kept;
use table_words::{Cell, NODES, TIPS, cell_index};

// The place of a kept label; a struck one gets 255, which lies in no span. One test, no switch of steps.
fn place_of(keeps: bool, place: Cell) -> Cell
    ensures { result ≡ place_of keeps place }
{
    if keeps {
        return place;
    }
    255
}

// At each label's place in the second walk, its place in the first.
pub(crate) fn fill_places(
    marks: &[u8],
    n: usize,
    first_nodes: &[u16; TIPS],
    second_nodes: &[u16; TIPS],
    first_begin: &[Cell; NODES],
    second_begin: &[Cell; NODES],
    at: &mut [Cell; TIPS],
)
    requires { PlaceRoom n first_nodes.now second_nodes.now first_begin.now second_begin.now at.old }
    ensures { PlacesListed n marks.now first_nodes.now second_nodes.now
        first_begin.now second_begin.now at.new }
{
    for y in 1..n {
        let node = usize::from(first_nodes[y]);
        let other = usize::from(second_nodes[y]);
        at[cell_index(second_begin[other])] = place_of(is_kept(marks, y), first_begin[node]);
    }
}

// 1 where place `at` lies in the span from `begin` to before `end`, 0 elsewhere.
fn within(at: Cell, begin: Cell, end: Cell) -> u64
    ensures { result ≡ bit (in_span at begin end) }
{
    if at < begin {
        return 0;
    }
    if at < end {
        return 1;
    }
    0
}

// What `term` gives for each of the first k places, added up, for each k up to `count`.
fn running_sums<F: Fn(Cell) -> u64>(
    at: &[Cell; TIPS],
    count: usize,
    term: F,
    sums: &mut [u64; TIPS],
)
    requires room { (count < tips_most) × (length sums.old ≡ tips_most) }
    requires callable { F.IsAlwaysCallable term }
    requires low { (p n : ℕ) → F.post term p n → n ≤ 65536 }
    ensures long { length sums.new ≡ tips_most }
    ensures sums { (f : ℕ → ℕ) → ((p n : ℕ) → F.post term p n → n ≡ f p)
        → (k : ℕ) → k ≤ count → word sums.new k ≡ sum k (λ i. f (word at.now i)) }
{
    sums[0] = 0;
    let mut total = 0u64;
    for (k, &place) in at[..count].iter().enumerate() {
        total += term(place);
        sums[k + 1] = total;
    }
}

// How many of the first k places lie in a span, for each k up to `count`.
pub(crate) fn prefix(
    at: &[Cell; TIPS],
    count: usize,
    begin: Cell,
    end: Cell,
    sums: &mut [u64; TIPS],
)
    requires { (count < tips_most) × (length sums.old ≡ tips_most) }
    ensures { Prefixed at.now begin end count sums.new }
{
    running_sums(at, count, |place| within(place, begin, end), sums);
}

// One value at all places of a span.
pub(crate) fn fill_span(weights: &mut [u64; TIPS], begin: Cell, end: Cell, value: u64)
    requires { length weights.old ≡ tips_most }
    ensures { SpanFilled begin end end value weights.old weights.new }
{
    for k in cell_index(begin)..cell_index(end) {
        weights[k] = value;
    }
}

// What the first k places weigh, for each k up to `count`.
pub(crate) fn weigh(at: &[Cell; TIPS], count: usize, weights: &[u64; TIPS], sums: &mut [u64; TIPS])
    requires { (count < tips_most) × (length sums.old ≡ tips_most) × LowWeights weights.now }
    ensures { Weighed at.now weights.now count sums.new }
{
    running_sums(at, count, |place| weights[cell_index(place)], sums);
}
