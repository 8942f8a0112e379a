// The walk of a buffer in order, on lent columns: the account at a place, the message at a position of its queue; and how many messages an
// account has. Each gives its answer as a value; the calls by value and the exports are made of these.
#![tactic(auto)]

ghost use Rattle.std.specs.Prelude.{◌≡◌, ◌≤◌, length, get_or};
ghost use Rattle.buffer_seen.specs.Lent.{queued_in, account_found, message_found};

use message::Message;

// How many messages the queue of an account holds; 0 if it has none.
pub fn account_messages_count(
    owner: &[u16; 2048],
    accounts: &[u8; 16384],
    numbers: &[u64; 528],
    name: [u8; 32],
) -> usize
    requires { (get_or numbers.now 3 0 ≤ 256) × (get_or numbers.now 2 0 ≤ length owner.now) }
    ensures { result ≡ queued_in owner.now accounts.now numbers.now name }
{
    let held = numbers[2] as usize;
    let places = numbers[3] as usize;
    queues::queued(owner, held, accounts, places, &name)
}

// The account at a place of the order; none past the end.
pub fn account_at(accounts: &[u8; 16384], numbers: &[u64; 528], place: u16) -> Option<[u8; 32]>
    requires { get_or numbers.now 3 0 ≤ 256 }
    ensures { result ≡ account_found accounts.now numbers.now place }
{
    let p = usize::from(place);
    if p < numbers[3] as usize {
        Some(rows::get_row(accounts, p))
    } else {
        None
    }
}

// The message at a position of the queue at a place of the order; none past either end.
pub fn message_at(
    owner: &[u16; 2048],
    kind: &[u8; 2048],
    form: &[u8; 2048],
    time: &[u64; 2048],
    address: &[u8; 65536],
    hash: &[u8; 65536],
    numbers: &[u64; 528],
    place: u16,
    position: usize,
) -> Option<Message>
    requires { get_or numbers.now 2 0 ≤ 1024 }
    ensures { result ≡ message_found owner.now kind.now form.now time.now address.now hash.now numbers.now place position }
{
    let n = numbers[2] as usize;
    let row = queues::row_of(owner, n, place, position);
    if row < n {
        Some(records::message_at(kind, form, time, address, hash, row))
    } else {
        None
    }
}
