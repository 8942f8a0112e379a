// The walk of a buffer in order: the account at a place, the message at a position of its queue; and how many messages an account has. Each is
// a read of crate `buffer_seen` on the columns that it needs, which are taken out of the buffer by name: a field lent in place would have the
// whole buffer copied first.
#![tactic(auto)]

ghost use Rattle.std.specs.Prelude.{◌≡◌};
ghost use Rattle.rules.specs.Queues.{queued as queued_of, account_at, message_at};
ghost use Rattle.message.specs.Real.{Real};
ghost use Rattle.message.specs.Seen.{seen_account, seen_message};
ghost use Rattle.queues.specs.Meant.{meant};
ghost use Rattle.buffers.specs.Buffers.{cols_of, GoodBuffer};

use buffers::buffer::Buffer;
use message::Message;
use numbers::Place;

// How many messages the queue of an account holds; 0 if it has none.
pub fn account_messages_count(buffer: Buffer, name: [u8; 32]) -> usize
    requires { GoodBuffer buffer }
    ensures { result ≡ queued_of Real name (meant (cols_of buffer)).now }
{
    let Buffer {
        owner,
        accounts,
        numbers,
        ..
    } = buffer;
    buffer_seen::account_messages_count(&owner, &accounts, &numbers, name)
}

// The account at a place of the order; none past the end.
pub fn account_at(buffer: Buffer, place: Place) -> Option<[u8; 32]>
    requires { GoodBuffer buffer }
    ensures { result ≡ seen_account (account_at Real place.0 (meant (cols_of buffer)).now) }
{
    let Buffer {
        accounts,
        numbers,
        ..
    } = buffer;
    buffer_seen::account_at(&accounts, &numbers, place.0)
}

// The message at a position of the queue at a place of the order; none past either end.
pub fn message_at(buffer: Buffer, place: Place, position: usize) -> Option<Message>
    requires { GoodBuffer buffer }
    ensures { result ≡ seen_message (message_at Real place.0 position (meant (cols_of buffer)).now) }
{
    let Buffer {
        owner,
        kind,
        form,
        time,
        address,
        hash,
        numbers,
        ..
    } = buffer;
    buffer_seen::message_at(
        &owner, &kind, &form, &time, &address, &hash, &numbers, place.0, position,
    )
}
