// The commands of the buffer.
ghost use Rattle.lintelsong.specs.Closed.{GoodBuffer};

use crate::names;
use lintelsong::Buffer;
use lintelsong::buffer_calls::Answer;
use message::{Form, Message};
use scenario::commands::{BufferOrder, Record};
use scenario::replies::Reply;

// What an order leaves: the buffer, and the answer.
#[derive(Clone, Copy)]
pub struct Done {
    pub buffer: Buffer,
    pub reply: Reply,
}

// The buffer at the start.
pub fn fresh() -> Buffer
    ensures { GoodBuffer result }
{
    Buffer::set_up(1, 1).buffer
}

// The message of a record.
fn message_of(r: Record) -> Message {
    let form = if r.other { Form::Other } else { Form::Standard };
    Message {
        kind: r.kind,
        special: r.special,
        form,
        address: words::name::name_of(r.account),
        time: r.time,
        hash: words::name::name_of(r.hash),
    }
}

// Removes the accounts that the first n numbers name.
fn remove(b: Buffer, numbers: &[u64], n: usize) -> Answer
    requires { GoodBuffer b }
    ensures { GoodBuffer result.buffer }
{
    let mut names = names::room();
    let size = names::lay_out(numbers, n, &mut names);
    b.remove_int_messages_by_accounts(&names[..size])
}

// Does an order once. A removal takes the first n numbers.
fn obey(b: Buffer, o: BufferOrder, numbers: &[u64], n: usize) -> Answer
    requires { GoodBuffer b }
    ensures { GoodBuffer result.buffer }
{
    match o {
        BufferOrder::SetUp(m, a) => Buffer::set_up(m, a),
        BufferOrder::Add(r) => b.add_message(message_of(r)),
        BufferOrder::Remove => remove(b, numbers, n),
        BufferOrder::Begin => b.begin(),
        BufferOrder::Commit => b.commit(),
        BufferOrder::Rollback => b.rollback(),
    }
}

// Does an order so many times, once at least; the answer is the last one.
pub fn repeat(b: Buffer, times: u64, o: BufferOrder, numbers: &[u64], n: usize) -> Done
    requires { GoodBuffer b }
    ensures { GoodBuffer result.buffer }
{
    let mut a = obey(b, o, numbers, n);
    for _ in 1..times {
        a = obey(a.buffer, o, numbers, n);
    }
    Done {
        buffer: a.buffer,
        reply: Reply::Code(message::number_of(a.code)),
    }
}
