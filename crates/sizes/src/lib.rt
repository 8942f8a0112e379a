// The size that a set-up gives: the one asked for, or room for one message of one account, or for one slot. Set-up by value and set-up of lent
// columns both ask here.
#![tactic(auto)]

ghost use Rattle.std.specs.Prelude.{◌≡◌};
ghost use Rattle.rules.specs.Calls.{within as in_range};
ghost use Rattle.sizes.specs.Sizes.{size_for, slots_for};

use message::{Code, Refusal};

// What a set-up of a buffer answers: its code, and the messages and accounts that it gives room for.
// stays: what may not change: `size_for` promises a size on a refusal too (specs/Sizes), so the code stands beside it.
#[derive(Clone, Copy)]
pub struct Size {
    pub code: Code,
    pub messages: u64,
    pub accounts: u64,
}

// What a set-up of a group answers: its code, and the slots that it gives room for.
// stays: what may not change: `slots_for` promises a size on a refusal too (specs/Sizes).
#[derive(Clone, Copy)]
pub struct Slots {
    pub code: Code,
    pub slots: u64,
}

// Whether n lies from 1 to `high`.
fn within(n: u64, high: u64) -> bool
    ensures { result ≡ in_range 1 high n }
{
    1 <= n && n <= high
}

// M messages, 1 to 1,024, and A accounts, 1 to 256; refused, one of each.
pub fn size_for(m: u64, a: u64) -> Size
    ensures { result ≡ size_for m a }
{
    if within(m, 1024) && within(a, 256) {
        return Size {
            code: Ok(()),
            messages: m,
            accounts: a,
        };
    }
    Size {
        code: Err(Refusal::SetUp),
        messages: 1,
        accounts: 1,
    }
}

// S slots, 1 to 64; refused, one.
pub fn slots_for(s: u64) -> Slots
    ensures { result ≡ slots_for s }
{
    if within(s, 64) {
        Slots {
            code: Ok(()),
            slots: s,
        }
    } else {
        Slots {
            code: Err(Refusal::SetUp),
            slots: 1,
        }
    }
}
