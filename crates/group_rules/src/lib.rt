// Theorems alone: what a call makes of a group's columns is what the rules make of what they mean.
#![tactic(auto)]
