// A move of an account to a slot, on lent columns of numbers and the record of the slot: its messages go from its queue to the slot, and it
// enters the group.
#![tactic(auto)]

ghost use Rattle.std.specs.Prelude.{◌≡◌, ◌+◌, ◌<◌};
ghost use Rattle.moves.specs.Moves.{alone, store, move_store};
ghost use Rattle.moves.specs.Good.{GoodStore};
ghost use Rattle.moves.specs.Linked.{Linked};

use moves::{Fixed, Slot, Tally};

// What a move leaves: the record of the slot, and the counts.
#[derive(Clone, Copy)]
pub struct Moved {
    pub record: Slot,
    pub tally: Tally,
}

// A move of a party to the slot at a position: no queue, no operation; else 1, and 1 more with 1 for each row popped where there is room.
pub fn move_to(
    owner: &mut [u16; 1024],
    plan: &[u16; 2304],
    taken: &mut [u16; 1024],
    home: &mut [u8; 1280],
    member: &mut [u16; 1280],
    record: Slot,
    fixed: Fixed,
    party: usize,
    slot: usize,
    tally: Tally,
) -> Moved
    requires good_store { GoodStore fixed (store owner.old taken.old home.old member.old (alone slot «record».ints) (alone slot «record».exts) tally) }
    requires party_bound { (party < 1280) × (slot < 64) }
    requires linked { Linked plan.now fixed.rows owner.old }
    ensures { store owner.new taken.new home.new member.new (alone slot result.record.ints) (alone slot result.record.exts) result.tally ≡ move_store plan.now fixed party slot (store owner.old taken.old home.old member.old (alone slot «record».ints) (alone slot «record».exts) tally) }
{
    if fixed.places <= party {
        return Moved { record, tally };
    }
    let holds = moves::held(record);
    let most = takes::wanted(owner, plan, fixed.rows, party, fixed.height, holds);
    let begun = tally.spend(1);
    if most == 0 {
        return Moved {
            record,
            tally: begun,
        };
    }
    let took = takes::take_front(owner, plan, fixed.rows, party, most, taken, tally.taken);
    let grown = moves::grow(record, took);
    let spent = begun.spend((1 + took.pops) as u64);
    let now = Tally {
        taken: tally.taken + took.got,
        ..spent
    };
    let entered = moves::enter(home, member, party, slot, took.got, now);
    Moved {
        record: grown,
        tally: entered,
    }
}
