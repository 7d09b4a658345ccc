// What the pair calls answer of three trees, of two exchanged and of one replaced. Theory only, in specs/.
#![tactic(auto)]
