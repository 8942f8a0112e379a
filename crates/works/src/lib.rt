// The columns on numbers of one fill as one value: what the passes run on, and what they leave.
#![tactic(auto)]

use moves::Tally;
use numbers::SlotId;

// ---- what the entry makes

// The group's accounts as parties, and the parties' homes.
#[derive(Clone, Copy)]
pub struct Homes {
    pub member: [u16; 1280],
    pub home: [u8; 1280],
}

// What is said of the parties.
#[derive(Clone, Copy)]
pub struct Judged {
    pub mark: [u8; 1280],
    pub cost: [u64; 1280],
}

// The buffer's rows: their owners, and the plan.
#[derive(Clone, Copy)]
pub struct Rows {
    pub owner: [u16; 1024],
    pub plan: [u16; 2304],
}

// ---- all of it

// The owner of each row of the buffer, the plan with the rows' classes and the chains of their queues, and the rows taken; the home of each
// party, the party of each account of the group; how many messages of each kind a slot holds; mark and cost of each party, and the parties
// that joined the set; the slots' numbers by position; the `count` slots that the index lists below the height.
#[derive(Clone, Copy)]
pub struct Work {
    pub owner: [u16; 1024],
    pub plan: [u16; 2304],
    pub taken: [u16; 1024],
    pub home: [u8; 1280],
    pub member: [u16; 1280],
    pub ints: [u8; 64],
    pub exts: [u8; 64],
    pub mark: [u8; 1280],
    pub cost: [u64; 1280],
    pub joined: [u16; 1280],
    pub number: [u16; 64],
    pub listed: [u16; 1024],
    pub count: usize,
}

// Of those columns the ones that a run changes, and the slots' numbers: what the end of a fill needs, and no more is copied.
#[derive(Clone, Copy)]
pub struct Left {
    pub owner: [u16; 1024],
    pub taken: [u16; 1024],
    pub home: [u8; 1280],
    pub member: [u16; 1280],
    pub ints: [u8; 64],
    pub exts: [u8; 64],
    pub mark: [u8; 1280],
    pub joined: [u16; 1280],
    pub number: [u16; 64],
}

// What a run leaves: the columns, the counts, how many slots there are, the last number given, and how many messages were dropped.
#[derive(Clone, Copy)]
pub struct Done {
    pub left: Left,
    pub tally: Tally,
    pub slots: usize,
    pub last: SlotId,
    pub dropped: usize,
}
