// The lines of the buffer, of the skipped set and of the key list, in the scenario language.
#![tactic(auto)]

pub mod buffer_lines;
pub mod rest_lines;
pub mod rising;
