// Canonical tables: one table for each tree on some labels, and the copy of a tree as such a table. Theory only, in specs/.
#![tactic(auto)]
