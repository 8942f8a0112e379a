// Bytes kept on a page until it is full, and what is said of a line of a scenario: its echo, its answer, and that it is no command.
#![tactic(auto)]

pub mod out;
pub mod show;
