// The messages of a group as they are seen, on lent columns: those of an account's list, in their order. The call by value and the export are
// made of this.
#![tactic(auto)]

ghost use Rattle.std.specs.Prelude.{◌≡◌, ◌≤◌, length, get_or};
ghost use Rattle.messages_seen.specs.Messages.{row_for, message_found};

use message::Message;

// The row of the k-th message of an account.
fn row_for(
    accounts: &[u8; 32768],
    owner: &[u16; 1024],
    numbers: &[u64; 16],
    name: [u8; 32],
    k: usize,
) -> usize
    requires { (get_or numbers.now 2 0 ≤ 1024) × (get_or numbers.now 3 0 ≤ length owner.now) }
    ensures { result ≡ row_for accounts.now owner.now numbers.now name k }
{
    let held = numbers[2] as usize;
    let seat = rows::find_row(accounts, held, &name);
    let n = numbers[3] as usize;
    queues::row_of(owner, n, seat as u16, k)
}

// The k-th message of an account's list; none past the end or without a list.
pub fn message_at(
    accounts: &[u8; 32768],
    owner: &[u16; 1024],
    kind: &[u8; 1024],
    form: &[u8; 1024],
    time: &[u64; 1024],
    address: &[u8; 32768],
    hash: &[u8; 32768],
    numbers: &[u64; 16],
    name: [u8; 32],
    k: usize,
) -> Option<Message>
    requires { (get_or numbers.now 2 0 ≤ 1024) × (get_or numbers.now 3 0 ≤ 1024) }
    ensures { result ≡ message_found kind.now form.now time.now address.now hash.now numbers.now (row_for accounts.now owner.now numbers.now name k) }
{
    let row = row_for(accounts, owner, numbers, name, k);
    if row < numbers[3] as usize {
        Some(records::message_at(kind, form, time, address, hash, row))
    } else {
        None
    }
}
