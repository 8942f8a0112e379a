// The full buffer: 1,024 messages of 256 accounts, four each. oracle/src/bin/timing.rs makes the same.
ghost use Rattle.std.specs.Prelude.{◌<◌};
ghost use Rattle.lintelsong.specs.Closed.{GoodBuffer};

use lintelsong::Buffer;
use message::{Form, Message};

// With the filter on, externals of a chain time below this are dropped: those among the first 512 messages, half of them all.
pub const THRESHOLD: u64 = 1512;

// Message i is for account i mod 256; along each queue internals and externals take turns; times rise by one.
fn message(i: u64) -> Message
    requires { i < 1024 }
{
    Message {
        kind: ((i + i / 256) % 2) as u8,
        special: false,
        form: Form::Standard,
        address: words::name::name_of(i % 256),
        time: 1000 + i,
        hash: words::name::name_of(i),
    }
}

// The buffer with all of them.
pub fn full() -> Buffer
    ensures { GoodBuffer result }
{
    let made = Buffer::set_up(1024, 256);
    let mut buffer = made.buffer;
    for i in 0..1024 {
        buffer = buffer.add_message(message(i)).buffer;
    }
    buffer
}
