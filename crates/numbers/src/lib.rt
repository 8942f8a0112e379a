// Numbers that several crates share: the sum that stops at the greatest number, and the two kinds of number that are kept apart by their
// types.
#![tactic(auto)]

ghost use Rattle.std.specs.Prelude.{◌≡◌, ◌+◌, ◌-◌, ◌^◌, min};

// A slot's number. Numbers go on from the last one given, so they are not places in the slot table.
#[derive(Clone, Copy)]
pub struct SlotId(pub u16);

// A place in the account order. A count of messages is neither, and is a plain number.
#[derive(Clone, Copy)]
pub struct Place(pub u16);

// The sum of a and b, held at 2^64 - 1: it stops there and does not wrap round. A sum that wrapped is less than either part.
// stays: a rule of the project: document 01 names this form, the wrapping add and a comparison, and not the library's `saturating_add`.
pub fn saturating_sum(a: u64, b: u64) -> u64
    ensures { result ≡ min (a + b) (2 ^ 64 - 1) }
{
    let sum = std::num::wrapping_add_u64(a, b);
    if sum < a { u64::MAX } else { sum }
}
