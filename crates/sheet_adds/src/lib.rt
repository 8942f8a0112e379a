// What a sheet works on, and its messages, added in order. A refused one is told of in a line.
#![tactic(auto)]

ghost use Rattle.std.specs.Prelude.{◌≡◌, ◌+◌, ◌*◌, ◌≤◌, length};
ghost use Rattle.sheet_rows.specs.Answer.{fresh as fresh_held, added, adds};
ghost use Rattle.sheet_adds.specs.Steps.{meant_by, GoodState, Tells};

use lintelsong::{Buffer, Group, Skipped};
use message::Message;

// What a sheet works on.
#[derive(Clone, Copy)]
pub struct State {
    pub buffer: Buffer,
    pub group: Group,
    pub skipped: Skipped,
}

// What a part of a sheet leaves, and where its lines end.
#[derive(Clone, Copy)]
pub struct Reached {
    pub state: State,
    pub at: usize,
}

// The start: room for 256 messages of 64 accounts and for 16 slots, and an empty set.
pub fn fresh() -> State
    ensures { GoodState result × (meant_by result ≡ fresh_held) }
{
    State {
        buffer: Buffer::set_up(256, 64).buffer,
        group: Group::set_up(16).group,
        skipped: Skipped::fresh(),
    }
}

// Adds a message.
fn add(s: State, m: Message, number: u64, out: &mut [u8], at: usize) -> Reached
    requires { GoodState s × (at + 51 ≤ length out.old) }
    ensures { Tells (added m number (meant_by s)) 51 at out.old out.new result }
{
    let a = s.buffer.add_message(m);
    let code = u64::from(message::number_of(a.code));
    let end = answers::put_refusal(out, at, number, code);
    Reached {
        state: State {
            buffer: a.buffer,
            ..s
        },
        at: end,
    }
}

// Adds the messages of the first n rows.
pub fn all(s: State, cells: &[u64], n: usize, out: &mut [u8], at: usize) -> Reached
    requires { GoodState s × (3 * n ≤ length cells.now) × (length cells.now ≤ 1536) × (at + 51 * n ≤ length out.old) }
    ensures { Tells (adds cells.now n (meant_by s)) (51 * n) at out.old out.new result }
{
    let mut done = Reached { state: s, at };
    for i in 0..n {
        let m = sheet_rows::message_of(cells, i);
        done = add(done.state, m, i as u64 + 1, out, done.at);
    }
    done
}
