// The passes of a fill on lent columns of numbers: `run` is the first pass (crate `openings`), the second (crate `second_pass`) and the end (crate
// `ending`), all of it between the entry of a fill and the update of the index. `number` holds the slots' numbers by position; `listed` the
// numbers of the slots that the index lists below the height, in its order. Between the columns `ints` and `exts`, read at the start and
// written at the end, the slots are a table of records (crate `slot_rows`).
#![tactic(auto)]

ghost use Rattle.std.specs.Prelude.{◌≡◌, ◌+◌, ◌≤◌, take};
ghost use Rattle.meaning.specs.Meaning.{columns};
ghost use Rattle.meaning.specs.Walks.{Ready};
ghost use Rattle.meaning.specs.Passes.{ran_c, run_c};

use moves::{Fixed, Tally};
use numbers::SlotId;

// What a run leaves besides the columns.
#[derive(Clone, Copy)]
pub struct Ran {
    pub tally: Tally,
    pub slots: usize,
    pub last: SlotId,
    pub dropped: usize,
}

// A fill between its entry and the update of the index.
pub fn run(
    owner: &mut [u16; 1024],
    plan: &[u16; 2304],
    taken: &mut [u16; 1024],
    home: &mut [u8; 1280],
    member: &mut [u16; 1280],
    ints: &mut [u8; 64],
    exts: &mut [u8; 64],
    mark: &mut [u8; 1280],
    cost: &[u64; 1280],
    joined: &mut [u16; 1280],
    number: &mut [u16; 64],
    listed: &[u16; 1024],
    fixed: Fixed,
    count: usize,
    opens: usize,
    slots: usize,
    last: SlotId,
    tally: Tally,
) -> Ran
    requires ready { Ready fixed plan.now cost.now (columns owner.old taken.old home.old member.old ints.old exts.old mark.old joined.old tally) }
    requires numbers_fit { (slots + opens ≤ 64) × (last.0 + opens ≤ 65535) }
    requires count_bound { count ≤ 1024 }
    ensures { ran_c (columns owner.new taken.new home.new member.new ints.new exts.new mark.new joined.new result.tally) number.new result.slots result.last.0 result.dropped ≡ run_c plan.now cost.now fixed opens (take count listed.now) number.old slots last.0 (columns owner.old taken.old home.old member.old ints.old exts.old mark.old joined.old tally) }
{
    let mut table = slot_rows::gather(ints, exts);
    let a = openings::first(
        owner, plan, taken, home, member, mark, cost, joined, number, &mut table, fixed, opens,
        slots, last, tally,
    );
    let w = second_pass::second(
        owner, plan, taken, home, member, mark, cost, joined, number, listed, &mut table, fixed,
        count, slots, a.at, a.tally,
    );
    slot_rows::spread(&table, ints, exts);
    ending::sweep(owner, plan, fixed.rows, w.at, fixed.places);
    let e = ending::finish(owner, fixed, w.tally);
    Ran {
        tally: e.tally,
        slots: a.slots,
        last: a.last,
        dropped: e.dropped,
    }
}
