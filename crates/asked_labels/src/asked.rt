// The labels that a caller asks about: 10 and 11.
ghost use Rattle.std.specs.Prelude.{◌≡◌, ◌≤◌, eqb, length};
ghost use Rattle.sums.specs.Tests.{some};
ghost use Rattle.tree_check.specs.Table.{word, node_below};
ghost use Rattle.tree_check.specs.Refusals.{refusal};
ghost use Rattle.asked_labels.specs.LabelOrder.{too_large, two_equal, asked_order};

use tree_check::Refusal;

// Whether one of the labels is n or more.
fn some_too_large(asked: &[u16], n: usize) -> bool
    ensures { result ≡ too_large n asked.now }
{
    asked.iter().any(|x| n <= usize::from(*x))
}

// Whether one of the first `end` labels is x.
fn is_among(asked: &[u16], end: usize, x: u16) -> bool
    requires { end ≤ length asked.now }
    ensures { result ≡ some end (λ j. eqb (word asked.now j) x) }
{
    asked[..end].contains(&x)
}

// Whether two of the labels are equal.
fn two_equal(asked: &[u16]) -> bool
    ensures { result ≡ two_equal asked.now }
{
    for (i, x) in asked.iter().enumerate() {
        if is_among(asked, i, *x) {
            return true;
        }
    }
    false
}

// The number of a refusal, or 0: one of the labels is n or more, or two of them are equal.
// The answer is the number itself, as docs/LIBRARY.md promises.
pub fn asked_refusal(asked: &[u16], n: usize) -> u16
    ensures { result ≡ refusal (asked_order n asked.now) }
{
    if some_too_large(asked, n) {
        return u16::from(Refusal::TooLarge);
    }
    if two_equal(asked) {
        return u16::from(Refusal::Equal);
    }
    0
}

// The node with the label x: the last one, where several have it.
pub fn node_of(labels: &[u16], x: u16) -> usize
    ensures { result ≡ node_below (word labels.now) (length labels.now) x }
{
    let mut at = 0;
    for (v, label) in labels.iter().enumerate() {
        if *label == x {
            at = v;
        }
    }
    at
}
