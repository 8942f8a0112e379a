// The walk meets an account, on lent columns of numbers: the tests of an account and of a slot, and one account checked, passed over or moved. A
// slot is given by its position among the slots and its record, an account by its party; the places of the order are the parties below `places`.
#![tactic(auto)]

ghost use Rattle.std.specs.Prelude.{◌≡◌, cond, false, ◌+◌, ◌<◌};
ghost use Rattle.moves.specs.Moves.{alone};
ghost use Rattle.meaning.specs.Meaning.{columns};
ghost use Rattle.meaning.specs.Walks.{Ready, says_skip, moves_at, full_c, try_c, meet_c};

use moves::{Fixed, Slot, Tally};
use transfers::Moved;

const NOWHERE: u8 = 255;

// ---- tests

// Whether a mark says skip: 1, its row does; 2, it is in the skipped set.
pub fn skips(mark: u8) -> bool
    ensures { result ≡ says_skip mark }
{
    mark == 1 || mark == 2
}

// Whether the slot has no room left.
#[tactic(auto, unfolding(meaning::specs::Walks::full_c))]
pub fn full(record: Slot, height: usize) -> bool
    ensures { result ≡ full_c height («record».ints + «record».exts) }
{
    height <= moves::held(record)
}

// After a move, and only then, the slot is looked at: is it full?
pub fn stops(moved: bool, record: Slot, height: usize) -> bool
    ensures { result ≡ cond moved (full_c height («record».ints + «record».exts)) false }
{
    moved && full(record, height)
}

// Whether the account that the walk meets is moved: it is not in the group, and not marked for skipping.
#[tactic(auto, unfolding(meaning::specs::Walks::moves_at))]
pub fn moving(home: &[u8; 1280], mark: &[u8; 1280], party: usize) -> bool
    requires { party < 1280 }
    ensures { result ≡ moves_at home.now mark.now party }
{
    home[party] == NOWHERE && !skips(mark[party])
}

// ---- one account

// A party is checked, then passed over or moved to the slot.
pub fn attempt(
    owner: &mut [u16; 1024],
    plan: &[u16; 2304],
    taken: &mut [u16; 1024],
    home: &mut [u8; 1280],
    member: &mut [u16; 1280],
    mark: &mut [u8; 1280],
    cost: &[u64; 1280],
    joined: &mut [u16; 1280],
    record: Slot,
    fixed: Fixed,
    party: usize,
    slot: usize,
    tally: Tally,
) -> Moved
    requires ready { Ready fixed plan.now cost.now (columns owner.old taken.old home.old member.old (alone slot «record».ints) (alone slot «record».exts) mark.old joined.old tally) }
    requires party_bound { (party < 1280) × (slot < 64) }
    ensures { columns owner.new taken.new home.new member.new (alone slot result.record.ints) (alone slot result.record.exts) mark.new joined.new result.tally ≡ try_c plan.now cost.now fixed slot party (columns owner.old taken.old home.old member.old (alone slot «record».ints) (alone slot «record».exts) mark.old joined.old tally) }
{
    let skip = skips(mark[party]);
    let checked = moves::check(mark, cost, joined, party, tally);
    if skip {
        takes::pass_over(owner, plan, fixed.rows, party);
        return Moved {
            record,
            tally: checked,
        };
    }
    transfers::move_to(
        owner, plan, taken, home, member, record, fixed, party, slot, checked,
    )
}

// The walk meets an account: in the group, it is passed over without a check.
pub fn meet(
    owner: &mut [u16; 1024],
    plan: &[u16; 2304],
    taken: &mut [u16; 1024],
    home: &mut [u8; 1280],
    member: &mut [u16; 1280],
    mark: &mut [u8; 1280],
    cost: &[u64; 1280],
    joined: &mut [u16; 1280],
    record: Slot,
    fixed: Fixed,
    party: usize,
    slot: usize,
    tally: Tally,
) -> Moved
    requires ready { Ready fixed plan.now cost.now (columns owner.old taken.old home.old member.old (alone slot «record».ints) (alone slot «record».exts) mark.old joined.old tally) }
    requires party_bound { (party < 1280) × (slot < 64) }
    ensures { columns owner.new taken.new home.new member.new (alone slot result.record.ints) (alone slot result.record.exts) mark.new joined.new result.tally ≡ meet_c plan.now cost.now fixed slot party (columns owner.old taken.old home.old member.old (alone slot «record».ints) (alone slot «record».exts) mark.old joined.old tally) }
{
    if home[party] != NOWHERE {
        takes::pass_over(owner, plan, fixed.rows, party);
        return Moved { record, tally };
    }
    attempt(
        owner, plan, taken, home, member, mark, cost, joined, record, fixed, party, slot, tally,
    )
}
