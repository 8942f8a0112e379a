// What a row of a sheet says: a message, or what a fill is asked for. Rows are counted from 0, and a row's numbers stand one behind the other
// in a table of cells.
#![tactic(auto)]

ghost use Rattle.std.specs.Prelude.{◌≡◌, ◌+◌, ◌*◌, ◌≤◌, length};
ghost use Rattle.sheet_rows.specs.Answer.{message_at};
ghost use Rattle.sheet_rows.specs.Asking.{Asks};

use fill_answer::Asked;
use message::{Filter, Form, Message};

// The message of row i, which is kind, time, account; i counts from 0, and the hash from 1.
pub fn message_of(cells: &[u64], i: usize) -> Message
    requires { (3 * i + 3 ≤ length cells.now) × (length cells.now ≤ 1536) }
    ensures { result ≡ message_at cells.now i }
{
    let row = 3 * i;
    let kind: u8 = if cells[row] == 0 { 0 } else { 1 };
    let time = cells[row + 1];
    let address = words::name::name_of(cells[row + 2]);
    let hash = words::name::name_of(i as u64 + 1);
    Message {
        kind,
        special: false,
        form: Form::Standard,
        address,
        time,
        hash,
    }
}

// What row i asks for: slots, height, filter, threshold. An account without a skip row costs 0.
pub fn asked_of(cells: &[u64], i: usize) -> Asked
    requires { (4 * i + 4 ≤ length cells.now) × (length cells.now ≤ 256) }
    ensures { Asks cells.now i result }
{
    let row = 4 * i;
    let slots = cells[row];
    let height = cells[row + 1];
    let threshold = cells[row + 3];
    let filter = if cells[row + 2] == 0 {
        Filter::Off
    } else {
        Filter::Below(threshold)
    };
    Asked {
        slots,
        height,
        filter,
        cost: 0,
    }
}
