// All that a scenario works on, and each command done: the buffer, the tray with what is laid ready for a fill, and the shelf of groups.
// Nothing is read or written here.
#![tactic(auto)]

pub mod buffer;
pub mod fill;
pub mod looks;
pub mod names;
pub mod shelf;
pub mod tray;
