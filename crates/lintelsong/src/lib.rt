// The public face: closed types by value, and every call on them. Each call takes whatever it is handed, ends, and does its job or gives a
// refusal from the table of codes; a refused call gives back what it was handed. What a type holds is seen in this crate alone.
#![tactic(auto)]

pub mod buffer_calls;
pub mod fill_calls;
pub mod group_calls;
pub mod skipped_calls;

// A buffer for at most 1,024 messages of at most 256 accounts.
#[derive(Clone, Copy)]
pub struct Buffer {
    held: buffers::buffer::Buffer,
}

// A group of at most 64 slots, 1,024 accounts and 1,024 messages.
#[derive(Clone, Copy)]
pub struct Group {
    held: groups::group::Group,
}

// A set of at most 512 accounts that fills pass over.
#[derive(Clone, Copy)]
pub struct Skipped {
    held: skipped::Skipped,
}
