// What is read off a buffer's lent numbers: each read gives its answer as a value. The calls by value and the exports are made of these. What a
// buffer holds is read here, its walk in crate `buffer_seen`.
#![tactic(auto)]

pub mod held;

// The room of a buffer, M messages and A accounts (`capacity`, `places`), and what it holds.
#[derive(Clone, Copy)]
pub struct Counts {
    pub capacity: u64,
    pub places: u64,
    pub messages: u64,
    pub accounts: u64,
    pub ints: u64,
    pub exts: u64,
}

// Whether a buffer is filled, by count and by slots.
#[derive(Clone, Copy)]
pub struct Filled {
    pub count: bool,
    pub slots: bool,
}
