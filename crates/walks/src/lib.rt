// The walks through the account order for a slot, on lent columns of numbers and the record of the slot: until it holds a message, and until
// it is full.
#![tactic(auto)]

ghost use Rattle.std.specs.Prelude.{◌≡◌, ◌-◌, ◌<◌};
ghost use Rattle.moves.specs.Moves.{alone};
ghost use Rattle.meaning.specs.Meaning.{columns};
ghost use Rattle.meaning.specs.Walks.{Ready, walk, seek_c, reach_c};

use moves::{Fixed, Slot, Tally};

// Where a walk of the account order stopped: the next place, the record of the slot, and the counts.
#[derive(Clone, Copy)]
pub struct Walk {
    pub at: usize,
    pub record: Slot,
    pub tally: Tally,
}

// The walk for a new slot, from a place on, until the slot holds a message.
// stays: `seek` and `reach` are two functions and no generic one, as the rules `seek_c` and `reach_c` are two definitions that theorems speak of.
pub fn seek(
    owner: &mut [u16; 1024],
    plan: &[u16; 2304],
    taken: &mut [u16; 1024],
    home: &mut [u8; 1280],
    member: &mut [u16; 1280],
    mark: &mut [u8; 1280],
    cost: &[u64; 1280],
    joined: &mut [u16; 1280],
    record: Slot,
    fixed: Fixed,
    slot: usize,
    from: usize,
    tally: Tally,
) -> Walk
    requires ready { Ready fixed plan.now cost.now (columns owner.old taken.old home.old member.old (alone slot «record».ints) (alone slot «record».exts) mark.old joined.old tally) }
    requires slot_bound { slot < 64 }
    ensures { walk result.at (columns owner.new taken.new home.new member.new (alone slot result.record.ints) (alone slot result.record.exts) mark.new joined.new result.tally) ≡ seek_c plan.now cost.now fixed slot (fixed.places - from) from (columns owner.old taken.old home.old member.old (alone slot «record».ints) (alone slot «record».exts) mark.old joined.old tally) }
{
    let mut record = record;
    let mut now = tally;
    for at in from..fixed.places {
        let met = meeting::meet(
            owner, plan, taken, home, member, mark, cost, joined, record, fixed, at, slot, now,
        );
        record = met.record;
        now = met.tally;
        if moves::held(record) != 0 {
            return Walk {
                at: at + 1,
                record,
                tally: now,
            };
        }
    }
    Walk {
        at: from.max(fixed.places),
        record,
        tally: now,
    }
}

// The account order goes on, from a place on, until the slot is full.
pub fn reach(
    owner: &mut [u16; 1024],
    plan: &[u16; 2304],
    taken: &mut [u16; 1024],
    home: &mut [u8; 1280],
    member: &mut [u16; 1280],
    mark: &mut [u8; 1280],
    cost: &[u64; 1280],
    joined: &mut [u16; 1280],
    record: Slot,
    fixed: Fixed,
    slot: usize,
    from: usize,
    tally: Tally,
) -> Walk
    requires ready { Ready fixed plan.now cost.now (columns owner.old taken.old home.old member.old (alone slot «record».ints) (alone slot «record».exts) mark.old joined.old tally) }
    requires slot_bound { slot < 64 }
    ensures { walk result.at (columns owner.new taken.new home.new member.new (alone slot result.record.ints) (alone slot result.record.exts) mark.new joined.new result.tally) ≡ reach_c plan.now cost.now fixed slot (fixed.places - from) from (columns owner.old taken.old home.old member.old (alone slot «record».ints) (alone slot «record».exts) mark.old joined.old tally) }
{
    let mut record = record;
    let mut now = tally;
    for at in from..fixed.places {
        let moved = meeting::moving(home, mark, at);
        let met = meeting::meet(
            owner, plan, taken, home, member, mark, cost, joined, record, fixed, at, slot, now,
        );
        record = met.record;
        now = met.tally;
        if meeting::stops(moved, record, fixed.height) {
            return Walk {
                at: at + 1,
                record,
                tally: now,
            };
        }
    }
    Walk {
        at: from.max(fixed.places),
        record,
        tally: now,
    }
}
