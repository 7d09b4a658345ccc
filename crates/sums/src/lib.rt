// Finite sums, counts and tests over natural numbers: theory only, in specs/.
#![tactic(auto)]
