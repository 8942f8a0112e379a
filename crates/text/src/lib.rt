// A sheet read from text: skip rows, messages and fills, each section behind its count, a line each.
#![tactic(auto)]

pub mod sheet;
