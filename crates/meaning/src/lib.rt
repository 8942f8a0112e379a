// No code stands here: the crate is its specs and proofs, which say what the columns of a fill mean and that each routine on columns does
// to them what the rule of its name does to what they mean.
#![tactic(auto)]
