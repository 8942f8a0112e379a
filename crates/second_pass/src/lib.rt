// The second pass of a fill on lent columns of numbers and the table of slot records: a visit to each listed slot that stood at entry. `number`
// holds the slots' numbers by position; `listed` the numbers of the slots that the index lists below the height, in its order.
#![tactic(auto)]

ghost use Rattle.std.specs.Prelude.{◌≡◌, ◌<◌, ◌≤◌, take};
ghost use Rattle.slot_rows.specs.Rows.{ints_of, exts_of};
ghost use Rattle.meaning.specs.Meaning.{columns};
ghost use Rattle.meaning.specs.Walks.{Ready, walk, visit_c};
ghost use Rattle.meaning.specs.Passes.{second_c};
ghost use Rattle.rosters.specs.Rosters.{Listed};

use moves::{Fixed, Slot, Tally};
use numbers::SlotId;
use serving::Served;

// A visit to the slot at a position: its record is read from the table and written back, and the newcomers of the visit are enlisted.
fn visit_slot(
    owner: &mut [u16; 1024],
    plan: &[u16; 2304],
    taken: &mut [u16; 1024],
    home: &mut [u8; 1280],
    member: &mut [u16; 1280],
    mark: &mut [u8; 1280],
    cost: &[u64; 1280],
    joined: &mut [u16; 1280],
    roster: &mut [u16; 1408],
    table: &mut [Slot; 64],
    fixed: Fixed,
    slot: usize,
    from: usize,
    tally: Tally,
) -> Served
    requires ready { Ready fixed plan.now cost.now (columns owner.old taken.old home.old member.old (ints_of table.old) (exts_of table.old) mark.old joined.old tally) }
    requires slot_bound { (slot < 64) × Listed roster.old tally.accounts home.old member.old }
    ensures tally_after { walk result.at (columns owner.new taken.new home.new member.new (ints_of table.new) (exts_of table.new) mark.new joined.new result.tally) ≡ visit_c plan.now cost.now fixed slot from (columns owner.old taken.old home.old member.old (ints_of table.old) (exts_of table.old) mark.old joined.old tally) }
    ensures listed { Listed roster.new result.tally.accounts home.new member.new }
{
    let record = table[slot];
    let w = visits::visit(
        owner, plan, taken, home, member, mark, cost, joined, roster, record, fixed, slot, from,
        tally,
    );
    let now = w.tally;
    rosters::enlist(roster, home, member, tally.accounts, now.accounts);
    slot_rows::write_table(table, slot, w.record);
    Served {
        at: w.at,
        tally: now,
    }
}

// The second pass: a visit to each of the `count` slots listed that stood at entry, where there were `entry` slots. The roster of the slots is made
// here, where it is needed, and each visit's newcomers are enlisted behind it.
pub fn second(
    owner: &mut [u16; 1024],
    plan: &[u16; 2304],
    taken: &mut [u16; 1024],
    home: &mut [u8; 1280],
    member: &mut [u16; 1280],
    mark: &mut [u8; 1280],
    cost: &[u64; 1280],
    joined: &mut [u16; 1280],
    number: &[u16; 64],
    listed: &[u16; 1024],
    table: &mut [Slot; 64],
    fixed: Fixed,
    count: usize,
    entry: usize,
    from: usize,
    tally: Tally,
) -> Served
    requires ready { Ready fixed plan.now cost.now (columns owner.old taken.old home.old member.old (ints_of table.old) (exts_of table.old) mark.old joined.old tally) }
    requires bound { (entry ≤ 64) × (count ≤ 1024) }
    ensures { walk result.at (columns owner.new taken.new home.new member.new (ints_of table.new) (exts_of table.new) mark.new joined.new result.tally) ≡ second_c plan.now cost.now fixed number.now entry (take count listed.now) from (columns owner.old taken.old home.old member.old (ints_of table.old) (exts_of table.old) mark.old joined.old tally) }
{
    if count == 0 {
        return Served { at: from, tally };
    }
    let mut roster = [65535u16; 1408];
    rosters::enlist(&mut roster, home, member, 0, tally.accounts);
    let mut at = from;
    let mut now = tally;
    for id in &listed[..count] {
        let slot = positions::position_of(number, entry, SlotId(*id));
        if slot < entry {
            let w = visit_slot(
                owner,
                plan,
                taken,
                home,
                member,
                mark,
                cost,
                joined,
                &mut roster,
                table,
                fixed,
                slot,
                at,
                now,
            );
            at = w.at;
            now = w.tally;
        }
    }
    Served { at, tally: now }
}
