// What a text of lines, words and decimal numbers is read and written with. Every function is on slices and numbers, takes whatever it is
// handed, and ends.
#![tactic(auto)]

pub mod cut;
pub mod decimal;
pub mod name;
