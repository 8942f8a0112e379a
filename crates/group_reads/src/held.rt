// What a group holds, read off its numbers: its counts, whether it is empty, the last slot number.
ghost use Rattle.std.specs.Prelude.{◌≡◌, ◌≤◌, get_or};
ghost use Rattle.group_reads.specs.Lent.{counts_in, empty_in, last_in};
ghost use Rattle.group_reads.specs.Shown.{id_of};

use crate::Counts;
use numbers::SlotId;

// The room of the group and what it holds.
pub fn counts(numbers: &[u64; 16]) -> Counts
    ensures { result ≡ counts_in numbers.now }
{
    Counts {
        capacity: numbers[0],
        slots: numbers[1],
        accounts: numbers[2],
        messages: numbers[3],
        ints: numbers[4],
        exts: numbers[5],
    }
}

// Whether it has no slot.
pub fn is_empty(numbers: &[u64; 16]) -> bool
    ensures { result ≡ empty_in numbers.now }
{
    let slots = numbers[1];
    slots == 0
}

// The number that stands beside the mark of a last slot, whether the mark is set or not.
pub fn last_number(numbers: &[u64; 16]) -> SlotId
    requires { get_or numbers.now 6 0 ≤ 65535 }
    ensures { result ≡ id_of (get_or numbers.now 6 0) }
{
    let last = numbers[6];
    SlotId(last as u16)
}

// The last slot number that was given, if any was; it is not the number of slots.
pub fn last_slot(numbers: &[u64; 16]) -> Option<SlotId>
    requires { get_or numbers.now 6 0 ≤ 65535 }
    ensures { result ≡ last_in numbers.now }
{
    if numbers[7] != 0 {
        Some(last_number(numbers))
    } else {
        None
    }
}
