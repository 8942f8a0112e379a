// A message record spread over columns: its form as a byte, and the record read back from a row.
#![tactic(auto)]

ghost use Rattle.std.specs.Prelude.{◌≡◌, ◌+◌, ◌*◌, ◌≤◌, ◌<◌, length};
ghost use Rattle.records.specs.Records.{form_byte, form_of, message_at, HasRow};

use message::{Form, Message};

// The byte that stands for a form.
// stays: no plainer as a `From`: that would stand in crate `message`, where both types can be named, away from the columns that hold the byte.
pub fn form_byte(f: Form) -> u8
    ensures { result ≡ form_byte f }
{
    match f {
        Form::Standard => 0,
        Form::Other => 1,
    }
}

// The form that a byte stands for.
pub fn form_of(b: u8) -> Form
    ensures { result ≡ form_of b }
{
    if b == 0 { Form::Standard } else { Form::Other }
}

// The message in row i. A special one is never held.
pub fn message_at(
    kind: &[u8],
    form: &[u8],
    time: &[u64],
    address: &[u8],
    hash: &[u8],
    i: usize,
) -> Message
    requires { HasRow i (length kind.now) (length form.now) (length time.now) (length address.now) (length hash.now) }
    ensures { result ≡ message_at kind.now form.now time.now address.now hash.now i }
{
    let to = rows::get_row(address, i);
    let hashed = rows::get_row(hash, i);
    let f = form_of(form[i]);
    Message {
        kind: kind[i],
        special: false,
        form: f,
        address: to,
        time: time[i],
        hash: hashed,
    }
}
