// The claim sums as sums over nodes and pairs of nodes, in row and column aggregates. Theory only, in specs/.
#![tactic(auto)]
