// How far the first pass has come with the slots to be opened: one more opened, or the one begun dropped as empty.
#![tactic(auto)]

ghost use Rattle.std.specs.Prelude.{◌≡◌, ◌+◌, ◌<◌};
ghost use Rattle.new_slots.specs.Fronts.{further_on, dropped_at};

use moves::Tally;
use numbers::SlotId;

// The position of the next slot, the last number given, and how many slots are still to be opened.
#[derive(Clone, Copy)]
pub struct Front {
    pub slot: usize,
    pub given: usize,
    pub left: usize,
}

// Where the first pass stopped: the next place, the counts, how many slots there are, and the last number given.
#[derive(Clone, Copy)]
pub struct Passed {
    pub at: usize,
    pub tally: Tally,
    pub slots: usize,
    pub last: SlotId,
}

// The number of the next slot: the one behind the last number given.
pub fn next_number(front: Front) -> u16
    requires { (front.slot < 64) × (front.given < 65535) }
    ensures { result ≡ front.given + 1 }
{
    let id = front.given + 1;
    id as u16
}

// The next slot is opened.
pub fn onward(front: Front) -> Front
    requires { (front.slot < 64) × (front.given < 65535) × (0 < front.left) }
    ensures { result ≡ further_on front }
{
    Front {
        slot: front.slot + 1,
        given: front.given + 1,
        left: front.left - 1,
    }
}

// The next slot stays empty and is dropped: there is one slot less than was begun, but its number is given.
pub fn dropped(front: Front, at: usize, tally: Tally) -> Passed
    requires { front.given < 65535 }
    ensures { result ≡ dropped_at front at tally }
{
    Passed {
        at,
        tally,
        slots: front.slot,
        last: SlotId((front.given + 1) as u16),
    }
}
