// The waiting line of the first pass on lent columns of numbers and the table of slot records: slots that got an account and still have room wait
// for the next one.
#![tactic(auto)]

ghost use Rattle.std.specs.Prelude.{◌≡◌, ℕ, ◌+◌, ◌-◌, ◌<◌, ◌≤◌, get_or};
ghost use Rattle.slot_rows.specs.Rows.{ints_of, exts_of};
ghost use Rattle.meaning.specs.Meaning.{columns};
ghost use Rattle.meaning.specs.Walks.{Ready, walk};
ghost use Rattle.meaning.specs.Passes.{line_in, waits, serve_c};

use moves::{Fixed, Slot, Tally};

// Where serving stopped: the next place, and the counts.
#[derive(Clone, Copy)]
pub struct Served {
    pub at: usize,
    pub tally: Tally,
}

// Whether a slot waits and an account is left to be met.
fn waiting(at: usize, places: usize, head: usize, back: usize) -> bool
    ensures { result ≡ waits at places head back }
{
    at < places && head < back
}

// Serves the waiting line, which stands in `line` up to `tail`, from its front: a slot that got an account and still has room joins it again.
// stays: the loop goes on by the place and by the front of the line, each at its own pace, and the line grows behind while it is served; so there is
// no range or slice for a `for` to go over.
pub fn serve(
    owner: &mut [u16; 1024],
    plan: &[u16; 2304],
    taken: &mut [u16; 1024],
    home: &mut [u8; 1280],
    member: &mut [u16; 1280],
    mark: &mut [u8; 1280],
    cost: &[u64; 1280],
    joined: &mut [u16; 1280],
    line: &mut [u8; 320],
    table: &mut [Slot; 64],
    fixed: Fixed,
    tail: usize,
    from: usize,
    tally: Tally,
) -> Served
    requires ready { Ready fixed plan.now cost.now (columns owner.old taken.old home.old member.old (ints_of table.old) (exts_of table.old) mark.old joined.old tally) }
    requires tail_bound { tail ≤ 64 + from }
    requires by_index { (i : ℕ) → i < tail → get_or line.old i 0 < 64 }
    ensures { walk result.at (columns owner.new taken.new home.new member.new (ints_of table.new) (exts_of table.new) mark.new joined.new result.tally) ≡ serve_c plan.now cost.now fixed (line_in line.old 0 tail) (fixed.places - from) from (columns owner.old taken.old home.old member.old (ints_of table.old) (exts_of table.old) mark.old joined.old tally) }
{
    let mut head: usize = 0;
    let mut back = tail;
    let mut at = from;
    let mut now = tally;
    while waiting(at, fixed.places, head, back) {
        let slot = usize::from(line[head]);
        let moved = meeting::moving(home, mark, at);
        let record = table[slot];
        let met = meeting::meet(
            owner, plan, taken, home, member, mark, cost, joined, record, fixed, at, slot, now,
        );
        let left = met.record;
        slot_rows::write_table(table, slot, left);
        now = met.tally;
        at += 1;
        if moved {
            head += 1;
            if !meeting::full(left, fixed.height) {
                line[back] = slot as u8;
                back += 1;
            }
        }
    }
    Served { at, tally: now }
}
