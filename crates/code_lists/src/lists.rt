// The codes into each node counted, and their edges listed node after node.
ghost use Rattle.std.specs.Prelude.{◌≡◌, ℕ, ◌≤◌, ◌<◌, length};
ghost use Rattle.tree_check.specs.Table.{word};
ghost use Rattle.code_lists.specs.ListedCodes.{codes_of, codes_before, start_cell, edge_cell};
ghost use Rattle.code_lists.specs.lemmas.CodesAt.{Parents};
ghost use Rattle.code_lists.specs.lemmas.CodeCounts.{CountedCodes, StartsIn};
ghost use Rattle.code_lists.specs.lemmas.EdgePlaces.{EdgesIn};

use super::fits::codes_fit;
use table_words::NODES;

// How many codes lead into each node: each edge has one into the node above it and one into its own.
fn code_counts(parents: &[u16]) -> [usize; NODES]
    requires { Parents parents.now }
    ensures { CountedCodes parents.now (λ v. 0) (codes_of parents.now) result }
{
    let mut counts = [0usize; NODES];
    for i in 1..parents.len() {
        let v = usize::from(parents[i]);
        counts[v] += 1;
        counts[i] += 1;
    }
    counts
}

// Where the codes into each node begin in the list of all: in `starts`, and in `next` in the place of their counts.
fn code_starts(parents: &[u16], next: &mut [usize; NODES], starts: &mut [usize])
    requires parents { Parents parents.now × CountedCodes parents.now (λ v. 0) (codes_of parents.now) next.old }
    requires room { length parents.now < length starts.old }
    ensures { StartsIn parents.now starts.old next.new starts.new }
{
    let mut at = 0;
    for v in 0..parents.len() {
        let codes = next[v];
        next[v] = at;
        starts[v] = at;
        at += codes;
    }
    starts[parents.len()] = at;
}

// The edges of the codes into node 0, then of those into node 1, and so on; each node's own edge before its
// children's. `next` is where the next code into each node belongs.
fn edge_list(parents: &[u16], next: &mut [usize; NODES], edges: &mut [usize])
    requires parents { Parents parents.now × CountedCodes parents.now (codes_before parents.now) 0 next.old }
    requires room { codes_of parents.now ≤ length edges.old }
    ensures { EdgesIn parents.now edges.old edges.new }
{
    for i in 1..parents.len() {
        let v = usize::from(parents[i]);
        edges[next[v]] = i - 1;
        next[v] += 1;
        edges[next[i]] = i - 1;
        next[i] += 1;
    }
}

// The edges of the codes into the nodes, node after node, and where those of each node begin. Nothing is written
// where the parents are none, more than MOST_NODES or not each before its node, or the cells are too few.
pub fn list_codes(parents: &[u16], starts: &mut [usize], edges: &mut [usize])
    ensures { ((v : ℕ) → word starts.new v
        ≡ start_cell parents.now starts.old edges.old v)
        × ((c : ℕ) → word edges.new c
        ≡ edge_cell parents.now starts.old edges.old c) }
{
    if !codes_fit(parents, starts.len(), edges.len()) {
        return;
    }
    let mut next = code_counts(parents);
    code_starts(parents, &mut next, starts);
    edge_list(parents, &mut next, edges);
}
