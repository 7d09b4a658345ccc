// Three trees, two exchanged, and one replaced: the quartet distance is a metric. Theory only, in specs/.
#![tactic(auto)]
