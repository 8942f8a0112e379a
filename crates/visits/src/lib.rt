// A visit of the second pass to a slot, on lent columns of numbers and the record of the slot: the slot's own accounts, and then the account order.
#![tactic(auto)]

ghost use Rattle.std.specs.Prelude.{◌≡◌, ◌<◌};
ghost use Rattle.moves.specs.Moves.{alone};
ghost use Rattle.meaning.specs.Meaning.{columns};
ghost use Rattle.meaning.specs.Walks.{Ready, walk, own_c, visit_c};
ghost use Rattle.rosters.specs.Rosters.{Listed};

use moves::{Fixed, Slot, Tally};
use transfers::Moved;
use walks::Walk;

// The slot's own accounts, as listed when the visit began, until it is full. The roster leads from one to the next, past those of other slots.
// stays: the loop goes from a member to the next of its chain, while the columns of members are lent on to each visit; an iterator over the chain
// would need a type and contracts of its own for this one loop.
fn own(
    owner: &mut [u16; 1024],
    plan: &[u16; 2304],
    taken: &mut [u16; 1024],
    home: &mut [u8; 1280],
    member: &mut [u16; 1280],
    mark: &mut [u8; 1280],
    cost: &[u64; 1280],
    joined: &mut [u16; 1280],
    roster: &[u16; 1408],
    record: Slot,
    fixed: Fixed,
    slot: usize,
    tally: Tally,
) -> Moved
    requires ready { Ready fixed plan.now cost.now (columns owner.old taken.old home.old member.old (alone slot «record».ints) (alone slot «record».exts) mark.old joined.old tally) }
    requires slot_bound { (slot < 64) × Listed roster.now tally.accounts home.old member.old }
    ensures { columns owner.new taken.new home.new member.new (alone slot result.record.ints) (alone slot result.record.exts) mark.new joined.new result.tally ≡ own_c plan.now cost.now fixed slot tally.accounts 0 (columns owner.old taken.old home.old member.old (alone slot «record».ints) (alone slot «record».exts) mark.old joined.old tally) }
{
    let count = tally.accounts;
    let mut record = record;
    let mut now = tally;
    let mut next = rosters::first_in(roster, slot);
    while next < count {
        let party = usize::from(member[next]);
        let moved = !meeting::skips(mark[party]);
        let tried = meeting::attempt(
            owner, plan, taken, home, member, mark, cost, joined, record, fixed, party, slot, now,
        );
        record = tried.record;
        now = tried.tally;
        if meeting::stops(moved, record, fixed.height) {
            return Moved { record, tally: now };
        }
        next = rosters::next_in(roster, next);
    }
    Moved { record, tally: now }
}

// A visit of the second pass: the slot's own accounts first; then, if it has room, the account order goes on.
pub fn visit(
    owner: &mut [u16; 1024],
    plan: &[u16; 2304],
    taken: &mut [u16; 1024],
    home: &mut [u8; 1280],
    member: &mut [u16; 1280],
    mark: &mut [u8; 1280],
    cost: &[u64; 1280],
    joined: &mut [u16; 1280],
    roster: &[u16; 1408],
    record: Slot,
    fixed: Fixed,
    slot: usize,
    from: usize,
    tally: Tally,
) -> Walk
    requires ready { Ready fixed plan.now cost.now (columns owner.old taken.old home.old member.old (alone slot «record».ints) (alone slot «record».exts) mark.old joined.old tally) }
    requires slot_bound { (slot < 64) × Listed roster.now tally.accounts home.old member.old }
    ensures { walk result.at (columns owner.new taken.new home.new member.new (alone slot result.record.ints) (alone slot result.record.exts) mark.new joined.new result.tally) ≡ visit_c plan.now cost.now fixed slot from (columns owner.old taken.old home.old member.old (alone slot «record».ints) (alone slot «record».exts) mark.old joined.old tally) }
{
    let tried = own(
        owner, plan, taken, home, member, mark, cost, joined, roster, record, fixed, slot, tally,
    );
    let record = tried.record;
    let now = tried.tally;
    if meeting::full(record, fixed.height) {
        return Walk {
            at: from,
            record,
            tally: now,
        };
    }
    walks::reach(
        owner, plan, taken, home, member, mark, cost, joined, record, fixed, slot, from, now,
    )
}
