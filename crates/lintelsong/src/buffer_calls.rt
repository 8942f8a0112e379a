// The calls on a buffer. Each hands what the buffer holds to the call of crate `buffers` (what is read) or `changes`, and encloses what comes back.
ghost use Rattle.std.specs.Prelude.{◌≡◌, length, ◌/◌};
ghost use Rattle.rules.specs.World.{least_read};
ghost use Rattle.rules.specs.Queues.{queued as queued_of, account_at, message_at};
ghost use Rattle.rules.specs.Calls.{is_open, set_up_buffer, add_message, remove_accounts, begin as begin_by, commit as commit_by, rollback as rollback_by};
ghost use Rattle.columns.specs.Rows.{rows_of};
ghost use Rattle.message.specs.Real.{Real, offer};
ghost use Rattle.message.specs.Seen.{seen_account, seen_message};
ghost use Rattle.queues.specs.Meant.{meant};
ghost use Rattle.queues.specs.Append.{add_c};
ghost use Rattle.queues.specs.Compact.{remove_c};
ghost use Rattle.queues.specs.Transact.{begin_c, commit_c, rollback_c};
ghost use Rattle.buffer_reads.specs.Shown.{counts_of, filled_by};
ghost use Rattle.buffers.specs.Buffers.{set_up_c};
ghost use Rattle.lintelsong.specs.Closed.{cols_of, GoodBuffer, Gives};

use crate::Buffer;
use buffer_reads::{Counts, Filled};
use message::{Code, Message};
use numbers::Place;

// What a call answers: its code, and the buffer afterwards.
#[derive(Clone, Copy)]
pub struct Answer {
    pub code: Code,
    pub buffer: Buffer,
}

impl Buffer {
    // ---- set-up

    // Sets a buffer up for M messages, 1 to 1,024, and A accounts, 1 to 256. A refused one has room for one of each.
    pub fn set_up(m: u64, a: u64) -> Answer
        ensures { Gives (set_up_buffer Real m a) (set_up_c m a) result.code result.buffer }
    {
        let made = buffers::buffer::Buffer::set_up(m, a);
        let code = made.code;
        let held = made.buffer;
        Answer {
            code,
            buffer: Buffer { held },
        }
    }

    // ---- calls that change the buffer

    // Adds a message to the end of its account's queue: codes 2 to 5.
    pub fn add_message(self, m: Message) -> Answer
        requires { GoodBuffer self }
        ensures { Gives (add_message Real (offer m) (meant (cols_of self))) (add_c m (cols_of self)) result.code result.buffer }
    {
        let added = changes::add(self.held, m);
        let code = added.code;
        let held = added.buffer;
        Answer {
            code,
            buffer: Buffer { held },
        }
    }

    // Removes the queues of the named accounts, 32 bytes a name: code 8 if one of them holds an external. Names without a queue, names given
    // twice and bytes behind the last whole name do nothing.
    pub fn remove_int_messages_by_accounts(self, names: &[u8]) -> Answer
        requires { GoodBuffer self }
        ensures { Gives (remove_accounts Real (rows_of (length names.now / 32) names.now) (meant (cols_of self))) (remove_c names.now (cols_of self)) result.code result.buffer }
    {
        let removed = changes::remove(self.held, names);
        let code = removed.code;
        let held = removed.buffer;
        Answer {
            code,
            buffer: Buffer { held },
        }
    }

    // Opens a transaction: code 7 if one is open.
    pub fn begin(self) -> Answer
        requires { GoodBuffer self }
        ensures { Gives (begin_by Real (meant (cols_of self))) (begin_c (cols_of self)) result.code result.buffer }
    {
        let begun = changes::begin(self.held);
        let code = begun.code;
        let held = begun.buffer;
        Answer {
            code,
            buffer: Buffer { held },
        }
    }

    // Ends a transaction and leaves the buffer as it is: code 6 if none is open.
    pub fn commit(self) -> Answer
        requires { GoodBuffer self }
        ensures { Gives (commit_by Real (meant (cols_of self))) (commit_c (cols_of self)) result.code result.buffer }
    {
        let committed = changes::commit(self.held);
        let code = committed.code;
        let held = committed.buffer;
        Answer {
            code,
            buffer: Buffer { held },
        }
    }

    // Ends a transaction and gives back every queue, the order, the counts and the minimum as at begin: code 6 if none is open.
    pub fn rollback(self) -> Answer
        requires { GoodBuffer self }
        ensures { Gives (rollback_by Real (meant (cols_of self))) (rollback_c (cols_of self)) result.code result.buffer }
    {
        let undone = changes::rollback(self.held);
        let code = undone.code;
        let held = undone.buffer;
        Answer {
            code,
            buffer: Buffer { held },
        }
    }

    // ---- what a buffer holds

    // The room of the buffer and what it holds.
    pub fn counts(self) -> Counts
        requires { GoodBuffer self }
        ensures { result ≡ counts_of (meant (cols_of self)) }
    {
        self.held.counts()
    }

    // Whether there is a minimum chain time.
    pub fn has_min_ext_chain_time(self) -> bool
        requires { GoodBuffer self }
        ensures { result ≡ is_open (meant (cols_of self)).now.least }
    {
        self.held.has_min_ext_chain_time()
    }

    // The minimum chain time; absent reads as 2^64 - 1.
    pub fn min_ext_chain_time(self) -> u64
        requires { GoodBuffer self }
        ensures { result ≡ least_read (meant (cols_of self)).now.least }
    {
        self.held.min_ext_chain_time()
    }

    // Whether a transaction is open.
    pub fn in_tx(self) -> bool
        requires { GoodBuffer self }
        ensures { result ≡ is_open (meant (cols_of self)).kept }
    {
        self.held.in_tx()
    }

    // How many messages the queue of an account holds; 0 if it has none.
    pub fn account_messages_count(self, name: [u8; 32]) -> usize
        requires { GoodBuffer self }
        ensures { result ≡ queued_of Real name (meant (cols_of self)).now }
    {
        buffer_walks::account_messages_count(self.held, name)
    }

    // Whether the buffer is filled: by count, when it holds at least `limit` messages; by slots, never.
    pub fn check_is_filled(self, limit: u64) -> Filled
        requires { GoodBuffer self }
        ensures { result ≡ filled_by limit (meant (cols_of self)).now }
    {
        self.held.check_is_filled(limit)
    }

    // ---- the walk in order

    // The account at a place of the order; none past the end.
    pub fn account_at(self, place: Place) -> Option<[u8; 32]>
        requires { GoodBuffer self }
        ensures { result ≡ seen_account (account_at Real place.0 (meant (cols_of self)).now) }
    {
        buffer_walks::account_at(self.held, place)
    }

    // The message at a position of the queue at a place of the order; none past either end.
    pub fn message_at(self, place: Place, position: usize) -> Option<Message>
        requires { GoodBuffer self }
        ensures { result ≡ seen_message (message_at Real place.0 position (meant (cols_of self)).now) }
    {
        buffer_walks::message_at(self.held, place, position)
    }
}
