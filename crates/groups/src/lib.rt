// The group by value and every call on it, for the crates of this repository: its fields are open to them. Callers from outside hold the
// closed one of crate `lintelsong`, which hands each call on to here. A refused call gives back what it was handed.
#![tactic(auto)]

pub mod group;
