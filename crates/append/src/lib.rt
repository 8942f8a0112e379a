// An add: the account found by the index, the decision, the next row, the numbers, and the account's seat. Nothing large is copied, and a refusal writes nothing.
#![tactic(auto)]

ghost use Rattle.std.specs.Prelude.{◌≡◌};
ghost use Rattle.queues.specs.Cols.{cols};
ghost use Rattle.queues.specs.Good.{Good};
ghost use Rattle.queues.specs.Append.{left, add_c};
ghost use Rattle.append.specs.Rows.{Writable, Written};

use message::{Code, Message};

// Writes the message to row n.
fn write_row(
    m: Message,
    seat: usize,
    n: usize,
    owner: &mut [u16; 2048],
    kind: &mut [u8; 2048],
    form: &mut [u8; 2048],
    time: &mut [u64; 2048],
    address: &mut [u8; 65536],
    hash: &mut [u8; 65536],
)
    requires { Writable n seat }
    ensures { Written m seat n owner.old kind.old form.old time.old address.old hash.old owner.new kind.new form.new time.new address.new hash.new }
{
    owner[n] = seat as u16;
    kind[n] = m.kind;
    let f = m.form;
    form[n] = records::form_byte(f);
    time[n] = m.time;
    let to = m.address;
    rows::put_row(address, n, &to);
    let hashed = m.hash;
    rows::put_row(hash, n, &hashed);
}

// Adds a message to the end of its account's queue, or refuses it.
pub fn add(
    m: Message,
    owner: &mut [u16; 2048],
    kind: &mut [u8; 2048],
    form: &mut [u8; 2048],
    time: &mut [u64; 2048],
    address: &mut [u8; 65536],
    hash: &mut [u8; 65536],
    accounts: &mut [u8; 16384],
    numbers: &mut [u64; 528],
) -> Code
    requires { Good (cols owner.old kind.old form.old time.old address.old hash.old accounts.old numbers.old) }
    ensures { left result (cols owner.new kind.new form.new time.new address.new hash.new accounts.new numbers.new) ≡ add_c m (cols owner.old kind.old form.old time.old address.old hash.old accounts.old numbers.old) }
{
    let n = numbers[2] as usize;
    let places = numbers[3] as usize;
    let x = message::account(m);
    let seat = index::find(accounts, places, numbers, &x);
    admission::decide(m, seat, numbers)?;
    write_row(m, seat, n, owner, kind, form, time, address, hash);
    arrivals::count_in(m.kind, m.time, seat, numbers);
    admission::seat_in(seat, places, &x, accounts, numbers);
    Ok(())
}
