// What the exports of a group share: answers written out in numbers, zeros where there is nothing. A test answers 1 or 0.
#![tactic(auto)]

ghost use Rattle.std.specs.Prelude.{◌≡◌};
ghost use Rattle.group_parts.specs.Told.{listed, ToldId, ToldSlot};

use group_reads::{Counts, SeenSlot};
use numbers::SlotId;

// ---- answers

// Writes the counts in their order.
pub fn tell_counts(c: Counts, out: &mut [u64; 6])
    ensures { out.new ≡ listed c }
{
    *out = [c.capacity, c.slots, c.accounts, c.messages, c.ints, c.exts];
}

// Writes a slot number, 0 if there is none, and answers whether there is one.
pub fn tell_id(found: Option<SlotId>, out: &mut [u16; 1]) -> u8
    ensures { ToldId result out.new found }
{
    let id = found.unwrap_or(SlotId(0));
    *out = [id.0];
    export_parts::bit_of(found.is_some())
}

// Writes a slot's number and counts, zeros if there is none, and answers whether there is one.
pub fn tell_slot(found: Option<SeenSlot>, out: &mut [u64; 3]) -> u8
    ensures { ToldSlot result out.new found }
{
    let Some(slot) = found else {
        *out = [0, 0, 0];
        return 0;
    };
    let ints = u64::from(slot.ints);
    let exts = u64::from(slot.exts);
    *out = [u64::from(slot.id.0), ints, exts];
    1
}
