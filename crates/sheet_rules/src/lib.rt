// No code stands here: the crate is its specs and proofs, the sheet language and what holds of its readings.
#![tactic(auto)]
