// Theorems alone: the parts of a fill, one after the other, do what the rules say of a fill.
#![tactic(auto)]
