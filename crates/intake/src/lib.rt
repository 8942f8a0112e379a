// The input of a run, line by line, and each line taken as a command.
#![tactic(auto)]

pub mod input;
pub mod orders;
