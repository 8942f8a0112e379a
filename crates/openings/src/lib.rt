// The first pass of a fill on lent columns of numbers and the table of slot records: slots are opened, and then the waiting line is served. `number`
// holds the slots' numbers by position.
#![tactic(auto)]

ghost use Rattle.std.specs.Prelude.{◌≡◌, [], ◌+◌, ◌<◌, ◌≤◌};
ghost use Rattle.slot_rows.specs.Rows.{ints_of, exts_of};
ghost use Rattle.meaning.specs.Meaning.{columns};
ghost use Rattle.meaning.specs.Walks.{Ready, walk};
ghost use Rattle.meaning.specs.Passes.{passed_c, first_c};

use moves::{Fixed, Slot, Tally};
use new_slots::{Front, Passed};
use numbers::SlotId;

// The first pass: `opens` slots are to be opened behind the `slots` that stand, with the numbers behind the last; each is sought an account, and
// one still empty at the end of the order is dropped. Then the line is served.
// stays: `front.left` counts down how many slots are left, and `new_slots::onward` says so of the whole front; a `for` would count a second time
// beside it.
pub fn first(
    owner: &mut [u16; 1024],
    plan: &[u16; 2304],
    taken: &mut [u16; 1024],
    home: &mut [u8; 1280],
    member: &mut [u16; 1280],
    mark: &mut [u8; 1280],
    cost: &[u64; 1280],
    joined: &mut [u16; 1280],
    number: &mut [u16; 64],
    table: &mut [Slot; 64],
    fixed: Fixed,
    opens: usize,
    slots: usize,
    last: SlotId,
    tally: Tally,
) -> Passed
    requires ready { Ready fixed plan.now cost.now (columns owner.old taken.old home.old member.old (ints_of table.old) (exts_of table.old) mark.old joined.old tally) }
    requires numbers_fit { (slots + opens ≤ 64) × (last.0 + opens ≤ 65535) }
    ensures { passed_c (walk result.at (columns owner.new taken.new home.new member.new (ints_of table.new) (exts_of table.new) mark.new joined.new result.tally)) number.new result.slots result.last.0 ≡ first_c plan.now cost.now fixed opens [] number.old slots last.0 0 (columns owner.old taken.old home.old member.old (ints_of table.old) (exts_of table.old) mark.old joined.old tally) }
{
    let mut line = [0u8; 320];
    let mut tail: usize = 0;
    let mut at: usize = 0;
    let mut now = tally;
    let mut front = Front {
        slot: slots,
        given: usize::from(last.0),
        left: opens,
    };
    while 0 < front.left {
        let slot = front.slot;
        number[slot] = new_slots::next_number(front);
        let record = table[slot];
        let w = walks::seek(
            owner, plan, taken, home, member, mark, cost, joined, record, fixed, slot, at, now,
        );
        at = w.at;
        let left = w.record;
        slot_rows::write_table(table, slot, left);
        now = w.tally;
        if moves::held(left) == 0 {
            number[slot] = 0;
            return new_slots::dropped(front, at, now);
        }
        if !meeting::full(left, fixed.height) {
            line[tail] = slot as u8;
            tail += 1;
        }
        front = new_slots::onward(front);
    }
    let w = serving::serve(
        owner, plan, taken, home, member, mark, cost, joined, &mut line, table, fixed, tail, at,
        now,
    );
    Passed {
        at: w.at,
        tally: w.tally,
        slots: front.slot,
        last: SlotId(front.given as u16),
    }
}
