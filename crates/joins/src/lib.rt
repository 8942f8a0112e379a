// What a join of two groups decides and counts. Their rows are joined in crates `slot_joins`, `row_joins` and `number_joins`.
#![tactic(auto)]

pub mod join;
