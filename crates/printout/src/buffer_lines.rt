// The lines of the buffer: what it holds, and the queue of each account in order.
ghost use Rattle.lintelsong.specs.Closed.{GoodBuffer};

use buffer_reads::Counts;
use lintelsong::Buffer;
use numbers::Place;
use pages::out::Pen;
use pages::{out, show};

// The room of the buffer and what it holds.
fn counts(page: &mut [u8], pen: Pen, c: Counts) -> Pen {
    let numbers = [c.capacity, c.places, c.ints, c.exts, c.accounts];
    out::form(
        page,
        pen,
        b"buffer M=0 A=1 int=2 ext=3 accounts=4",
        &numbers,
    )
}

// The minimum, whether it is there, and whether a transaction is open.
fn marks(page: &mut [u8], pen: Pen, least: u64, marked: bool, open: bool) -> Pen {
    let numbers = [least, u64::from(marked), u64::from(open)];
    out::form(page, pen, b" min=0 marked=1 tx=2\n", &numbers)
}

// The line of the buffer.
pub fn buffer_line(page: &mut [u8], pen: Pen, b: Buffer) -> Pen
    requires { GoodBuffer b }
{
    let c = b.counts();
    let least = b.min_ext_chain_time();
    let marked = b.has_min_ext_chain_time();
    let open = b.in_tx();
    let p = counts(page, pen, c);
    marks(page, p, least, marked, open)
}

// The messages of the queue at a place.
fn queue(page: &mut [u8], pen: Pen, b: Buffer, place: u16) -> Pen
    requires { GoodBuffer b }
{
    let mut p = pen;
    for i in 0..1024 {
        let Some(m) = b.message_at(Place(place), i) else {
            return p;
        };
        p = show::spaced(page, p, i, m);
    }
    p
}

// The line of an account and its queue.
fn queue_line(page: &mut [u8], pen: Pen, b: Buffer, place: u16, account: [u8; 32]) -> Pen
    requires { GoodBuffer b }
{
    let numbers = [words::name::number_in(account)];
    let mut p = out::form(page, pen, b"  queue 0 = ", &numbers);
    p = queue(page, p, b, place);
    out::text(page, p, b"\n")
}

// A line for each account in order.
pub fn queues(page: &mut [u8], pen: Pen, b: Buffer) -> Pen
    requires { GoodBuffer b }
{
    let mut p = pen;
    for place in 0..256 {
        let Some(account) = b.account_at(Place(place)) else {
            return p;
        };
        p = queue_line(page, p, b, place, account);
    }
    p
}
