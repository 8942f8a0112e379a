// Theorems alone: what a call makes of the columns is what the rules make of what they mean.
#![tactic(auto)]
