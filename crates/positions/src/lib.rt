// Where a slot stands among the slots, by its number.
#![tactic(auto)]

ghost use Rattle.std.specs.Prelude.{◌≡◌, ◌==◌, ◌≤◌, position};
ghost use Rattle.meaning.specs.Passes.{position_from};

use numbers::SlotId;

// The first place at which a number stands.
fn first_at(numbers: &[u16], x: u16) -> Option<usize>
    ensures { result ≡ position (λ n. n == x) numbers.now }
{
    numbers.iter().position(|n| *n == x)
}

// The position of a slot among the first `slots`, or `slots` if it is not there.
// stays: the answer is no `Option`, as the rule `position_from` has none, and `second_c` goes on from its number.
pub fn position_of(number: &[u16; 64], slots: usize, id: SlotId) -> usize
    requires { slots ≤ 64 }
    ensures { result ≡ position_from number.now id.0 slots 0 }
{
    first_at(&number[..slots], id.0).unwrap_or(slots)
}
