// The state in the scenario language: the lines of a group, and all lines in their order.
#![tactic(auto)]

pub mod group_lines;
pub mod state;
