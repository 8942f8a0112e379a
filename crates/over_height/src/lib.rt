// Whether the index lists a slot below the height that holds more than the height.
#![tactic(auto)]

ghost use Rattle.std.specs.Prelude.{◌≡◌, ◌≤◌, take};
ghost use Rattle.buckets.specs.Cells.{index, GoodBuckets};
ghost use Rattle.rules.specs.World.{joined};
ghost use Rattle.over_height.specs.Heights.{held_of, some_above};

use numbers::SlotId;

// How many messages the slot of this number holds, 0 if there is none.
fn held_of(number: &[u16; 64], ints: &[u8; 64], exts: &[u8; 64], slots: usize, id: SlotId) -> usize
    requires { slots ≤ 64 }
    ensures { result ≡ held_of number.now ints.now exts.now slots id.0 }
{
    let at = positions::position_of(number, slots, id);
    if at < slots {
        return usize::from(ints[at]) + usize::from(exts[at]);
    }
    0
}

// Whether one of the `count` slots listed holds more than the height.
fn some_above(
    number: &[u16; 64],
    ints: &[u8; 64],
    exts: &[u8; 64],
    slots: usize,
    listed: &[u16; 1024],
    count: usize,
    height: usize,
) -> bool
    requires { (slots ≤ 64) × (count ≤ 1024) }
    ensures { result ≡ some_above height number.now ints.now exts.now slots (take count listed.now) }
{
    for &x in &listed[..count] {
        if held_of(number, ints, exts, slots, SlotId(x)) > height {
            return true;
        }
    }
    false
}

// Whether a bucket below the height lists a slot that holds more than the height.
pub fn overfull(
    number: &[u16; 64],
    ints: &[u8; 64],
    exts: &[u8; 64],
    slots: usize,
    buckets: &[u32; 1088],
    height: usize,
) -> bool
    requires { (slots ≤ 64) × GoodBuckets buckets.now × (height ≤ 16) }
    ensures { result ≡ some_above height number.now ints.now exts.now slots (joined (take height (index buckets.now))) }
{
    if buckets::none_below(buckets, height) {
        return false;
    }
    let mut listed = [0u16; 1024];
    let count = entry::list_below(buckets, height, &mut listed);
    some_above(number, ints, exts, slots, &listed, count, height)
}
