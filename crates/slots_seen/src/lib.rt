// The slots of a group as they are seen, on lent columns: by rising number, and by the bucket that lists them. Each gives its answer as a value;
// the calls by value and the exports are made of these.
#![tactic(auto)]

ghost use Rattle.std.specs.Prelude.{◌≡◌, ◌≤◌, get_or};
ghost use Rattle.buckets.specs.Cells.{GoodBuckets};
ghost use Rattle.slots_seen.specs.Slots.{slot_found, entry_in, id_found};

use group_reads::SeenSlot;
use numbers::SlotId;

// The slot at a position, by rising number; none past the end.
pub fn slot_at(
    number: &[u16; 64],
    ints: &[u8; 64],
    exts: &[u8; 64],
    numbers: &[u64; 16],
    position: usize,
) -> Option<SeenSlot>
    requires { get_or numbers.now 1 0 ≤ 64 }
    ensures { result ≡ slot_found number.now ints.now exts.now numbers.now position }
{
    if position < numbers[1] as usize {
        Some(SeenSlot {
            id: SlotId(number[position]),
            ints: ints[position],
            exts: exts[position],
        })
    } else {
        None
    }
}

// What the bucket of a count lists at a place; the mark past either end.
fn entry_in(buckets: &[u32; 1088], count: usize, k: usize) -> u32
    requires { GoodBuckets buckets.now }
    ensures { result ≡ entry_in buckets.now count k }
{
    if 17 <= count || 64 <= k {
        return buckets::NONE;
    }
    buckets::entry(buckets, count, k)
}

// The k-th slot number that the bucket of a count lists; none past either end.
pub fn bucket_at(buckets: &[u32; 1088], count: usize, k: usize) -> Option<SlotId>
    requires { GoodBuckets buckets.now }
    ensures { result ≡ id_found (entry_in buckets.now count k) }
{
    let entry = entry_in(buckets, count, k);
    if entry < buckets::NONE {
        Some(SlotId(entry as u16))
    } else {
        None
    }
}
