// Trees given by parents alone: ancestors, sides, directed edges, paths and centres. Theory only, in specs/.
#![tactic(auto)]
