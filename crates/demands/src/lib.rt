// No code stands here: the crate is the theorems about the rules of crate `rules`, demand 3 among them.
#![tactic(auto)]
