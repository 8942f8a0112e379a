// The buffer: set up, and read. What is read off it is read by crate `buffer_reads`, off its numbers.
ghost use Rattle.std.specs.Prelude.{◌≡◌};
ghost use Rattle.rules.specs.World.{least_read};
ghost use Rattle.rules.specs.Calls.{is_open, set_up_buffer};
ghost use Rattle.message.specs.Real.{Real};
ghost use Rattle.queues.specs.Meant.{meant};
ghost use Rattle.buffer_reads.specs.Shown.{counts_of, filled_by};
ghost use Rattle.buffers.specs.Buffers.{cols_of, GoodBuffer, Gives, fresh_c, set_up_c};

use buffer_reads::{Counts, Filled, held};
use message::Code;

// A buffer for at most 1,024 messages of at most 256 accounts. Rows 1,024 to 2,047 and accounts 256 to 511 are the backup room.
#[derive(Clone, Copy)]
pub struct Buffer {
    pub owner: [u16; 2048],
    pub kind: [u8; 2048],
    pub form: [u8; 2048],
    pub time: [u64; 2048],
    pub address: [u8; 65536],
    pub hash: [u8; 65536],
    pub accounts: [u8; 16384],
    pub numbers: [u64; 528],
}

// What a call answers: its code, and the buffer afterwards.
// stays: what may not change: a refused call gives back what it was handed (`Gives`), so the buffer stands beside the code.
#[derive(Clone, Copy)]
pub struct Answer {
    pub code: Code,
    pub buffer: Buffer,
}

// A buffer that holds nothing, with room for m messages of a accounts.
fn fresh(m: u64, a: u64) -> Buffer
    ensures { cols_of result ≡ fresh_c m a }
{
    let mut numbers = [0u64; 528];
    numbers[0] = m;
    numbers[1] = a;
    Buffer {
        owner: [0u16; 2048],
        kind: [0u8; 2048],
        form: [0u8; 2048],
        time: [0u64; 2048],
        address: [0u8; 65536],
        hash: [0u8; 65536],
        accounts: [0u8; 16384],
        numbers,
    }
}

impl Buffer {
    // ---- set-up

    // Sets a buffer up for M messages, 1 to 1,024, and A accounts, 1 to 256. A refused one has room for one of each.
    pub fn set_up(m: u64, a: u64) -> Answer
        ensures { Gives (set_up_buffer Real m a) (set_up_c m a) result.code result.buffer }
    {
        let size = sizes::size_for(m, a);
        Answer {
            code: size.code,
            buffer: fresh(size.messages, size.accounts),
        }
    }

    // ---- what a buffer holds

    // The room of the buffer and what it holds.
    pub fn counts(self) -> Counts
        requires { GoodBuffer self }
        ensures { result ≡ counts_of (meant (cols_of self)) }
    {
        held::counts(&self.numbers)
    }

    // Whether there is a minimum chain time.
    pub fn has_min_ext_chain_time(self) -> bool
        requires { GoodBuffer self }
        ensures { result ≡ is_open (meant (cols_of self)).now.least }
    {
        held::has_min_ext_chain_time(&self.numbers)
    }

    // The minimum chain time; absent reads as 2^64 - 1.
    pub fn min_ext_chain_time(self) -> u64
        requires { GoodBuffer self }
        ensures { result ≡ least_read (meant (cols_of self)).now.least }
    {
        held::min_ext_chain_time(&self.numbers)
    }

    // Whether a transaction is open.
    pub fn in_tx(self) -> bool
        requires { GoodBuffer self }
        ensures { result ≡ is_open (meant (cols_of self)).kept }
    {
        held::in_tx(&self.numbers)
    }

    // Whether the buffer is filled: by count, when it holds at least `limit` messages; by slots, never.
    pub fn check_is_filled(self, limit: u64) -> Filled
        requires { GoodBuffer self }
        ensures { result ≡ filled_by limit (meant (cols_of self)).now }
    {
        held::check_is_filled(&self.numbers, limit)
    }
}
