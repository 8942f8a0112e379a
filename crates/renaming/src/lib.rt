// No code stands here: the crate is its specs and proofs, which carry the rules from one naming of accounts to another.
#![tactic(auto)]
