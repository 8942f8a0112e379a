// What is read off a group, on lent columns: each read gives its answer as a value. The calls by value and the exports are made of these. What
// a group holds is read here; what is made of it in crate `group_shown`, its walks in crates `slots_seen`, `accounts_seen` and `messages_seen`.
#![tactic(auto)]

use numbers::SlotId;

pub mod held;

// The room of a group, S slots (`capacity`), and what it holds.
#[derive(Clone, Copy)]
pub struct Counts {
    pub capacity: u64,
    pub slots: u64,
    pub accounts: u64,
    pub messages: u64,
    pub ints: u64,
    pub exts: u64,
}

// The slot at a position: its number and its counts.
#[derive(Clone, Copy)]
pub struct SeenSlot {
    pub id: SlotId,
    pub ints: u8,
    pub exts: u8,
}
