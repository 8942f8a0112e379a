// Columns of numbers: what the loops over lent columns leave is one expression over what they were lent (specs/), and the laws of these
// expressions stand in proofs/. The loops themselves: crates `cells`, `rows` and `packing`.
#![tactic(auto)]
