// What a buffer holds: its counts, the minimum chain time, whether a transaction is open and whether it is filled.
ghost use Rattle.std.specs.Prelude.{◌≡◌};
ghost use Rattle.buffer_reads.specs.Lent.{counts_in, marked, lowest_in, filled_in};

use crate::{Counts, Filled};

// The room of the buffer and what it holds.
pub fn counts(numbers: &[u64; 528]) -> Counts
    ensures { result ≡ counts_in numbers.now }
{
    Counts {
        capacity: numbers[0],
        places: numbers[1],
        messages: numbers[2],
        accounts: numbers[3],
        ints: numbers[4],
        exts: numbers[5],
    }
}

// Whether there is a minimum chain time.
pub fn has_min_ext_chain_time(numbers: &[u64; 528]) -> bool
    ensures { result ≡ marked numbers.now 7 }
{
    let mark = numbers[7];
    mark != 0
}

// The minimum chain time; absent reads as 2^64 - 1.
pub fn min_ext_chain_time(numbers: &[u64; 528]) -> u64
    ensures { result ≡ lowest_in numbers.now }
{
    if numbers[7] != 0 {
        numbers[6]
    } else {
        u64::MAX
    }
}

// Whether a transaction is open.
pub fn in_tx(numbers: &[u64; 528]) -> bool
    ensures { result ≡ marked numbers.now 8 }
{
    let open = numbers[8];
    open != 0
}

// Whether the buffer is filled: by count, when it holds at least `limit` messages; by slots, never.
pub fn check_is_filled(numbers: &[u64; 528], limit: u64) -> Filled
    ensures { result ≡ filled_in numbers.now limit }
{
    Filled {
        count: limit <= numbers[2],
        slots: false,
    }
}
