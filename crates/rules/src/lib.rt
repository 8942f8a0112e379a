// No code stands here: the crate is its specs, the model of document 01, and the tables of cases that the check computes of it. The theorems
// about it stand in crate `demands`.
#![tactic(auto)]
