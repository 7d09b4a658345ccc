// The cost of the path from one tip to each other node: a climb from the tip to node 0, then one pass over the other nodes in
// rising order. A node's cost is found from the node before it on the path.
ghost use Rattle.std.specs.Prelude.{◌≡◌, ◌≢◌, ℕ, ◌+◌, ◌≤◌, length};
ghost use Rattle.table_words.specs.Sizes.{node_room};
ghost use Rattle.tree_check.specs.Table.{word};
ghost use Rattle.exchanges.specs.theorems.PathSum.{cost};
ghost use Rattle.exchange_distances.specs.lemmas.CostRoom.{CostRoom};
ghost use Rattle.exchange_distances.specs.lemmas.WalkArrays.{WalkFrom, path_most, Climbing, CostsFrom, Roomy};

use table_words::NODES;

// What a node of a path takes: of n labels e lie behind the edge from the one end, f behind the edge from the other, and q is
// the sum of the squares of the labels behind each edge into the node.
fn node_cost(n: usize, e: usize, f: usize, q: usize) -> usize
    requires { CostRoom n e f q }
    ensures { result ≡ cost n e f q }
{
    let s = n - e - f;
    2 * (s * (s * s)) + 3 * (s * s) + 6 * ((q - e * e - f * f) * (e + f - 2))
}

// The cost of the path from p that goes on past v, from the cost up to v: p itself takes nothing.
fn next_cost(v: usize, p: usize, before: usize, n: usize, e: usize, f: usize, q: usize) -> usize
    requires { v ≢ p → CostRoom n e f q × (before ≤ path_most) }
    ensures { (v ≡ p → result ≡ 0) × (v ≢ p → result ≡ before + cost n e f q) }
{
    if v == p {
        return 0;
    }
    before + node_cost(n, e, f, q)
}

// From p to node 0: each node is marked, and has the labels behind the edge towards p, and the cost of its path.
fn climb(
    parents: &[u16],
    n: usize,
    p: usize,
    size: &[usize; NODES],
    square: &[usize; NODES],
    marks: &mut [u8; NODES],
    toward: &mut [usize; NODES],
    costs: &mut [usize; NODES],
)
    requires { WalkFrom n parents.now size.now square.now p × Roomy marks.old toward.old costs.old
        × ((w : ℕ) → word marks.old w ≡ 0) }
    ensures { Climbing n parents.now size.now square.now p 0
        marks.new toward.new costs.new
        × Roomy marks.new toward.new costs.new }
{
    marks[p] = 1;
    let mut v = p;
    while 0 < v {
        let u = usize::from(parents[v]);
        let c = next_cost(v, p, costs[v], n, toward[v], n - size[v], square[v]);
        marks[u] = 1;
        toward[u] = size[v];
        costs[u] = c;
        v = u;
    }
}

// Every node that is not marked, from its parent.
fn sweep(
    parents: &[u16],
    n: usize,
    p: usize,
    size: &[usize; NODES],
    square: &[usize; NODES],
    marks: &[u8; NODES],
    toward: &mut [usize; NODES],
    costs: &mut [usize; NODES],
)
    requires { WalkFrom n parents.now size.now square.now p × Roomy marks.now toward.old costs.old
        × Climbing n parents.now size.now square.now p 0 marks.now toward.old costs.old }
    ensures { CostsFrom n parents.now size.now square.now p costs.new
        × Roomy marks.now toward.new costs.new }
{
    for i in 1..parents.len() {
        if marks[i] == 0 {
            let u = usize::from(parents[i]);
            let c = next_cost(u, p, costs[u], n, toward[u], size[i], square[u]);
            toward[i] = n - size[i];
            costs[i] = c;
        }
    }
}

// The cost of the path from p to each other node.
pub(crate) fn costs_from(
    parents: &[u16],
    n: usize,
    p: usize,
    size: &[usize; NODES],
    square: &[usize; NODES],
    toward: &mut [usize; NODES],
    costs: &mut [usize; NODES],
)
    requires { WalkFrom n parents.now size.now square.now p
        × (length toward.old ≡ node_room) × (length costs.old ≡ node_room) }
    ensures { CostsFrom n parents.now size.now square.now p costs.new
        × (length toward.new ≡ node_room) × (length costs.new ≡ node_room) }
{
    let mut marks = [0u8; NODES];
    climb(parents, n, p, size, square, &mut marks, toward, costs);
    sweep(parents, n, p, size, square, &marks, toward, costs);
}
