// Reads scenarios on standard input and prints what the buffer and the groups answer and hold, in the language of docs/SCENARIOS.md.
#![tactic(auto)]

ghost use Rattle.std.specs.Prelude.{◌≤◌};
ghost use Rattle.desk.specs.Desks.{KeyRoom};
ghost use Rattle.replay.specs.Runs.{Ready};

use desk::shelf::Shelf;
use desk::tray::Tray;
use intake::orders::Course;
use lintelsong::Buffer;
use scenario::commands::{Command, Order};
use scenario::replies::Reply;
use std::io::{Stdin, Stdout};

// An order done, and its answer. The line was echoed, so that its room is free for a text.
fn obeyed(
    order: Order,
    b: &mut Buffer,
    t: &mut Tray,
    s: &mut Shelf,
    line: &mut [u8],
    numbers: &[u64],
    lts: &mut [u64],
    hashes: &mut [u8],
) -> Reply
    requires { Ready b.old s.old t.old lts.old hashes.old }
    ensures { Ready b.new s.new t.new lts.new hashes.new }
{
    let times = order.times;
    match order.command {
        Command::Buffer(o) => {
            let d = desk::buffer::repeat(*b, times, o, numbers, order.numbers);
            *b = d.buffer;
            d.reply
        }
        Command::Tray(o) => {
            *t = desk::tray::repeat(*t, times, o, lts, hashes);
            Reply::Code(0)
        }
        Command::Shelf(o) => desk::shelf::repeat_on(s, times, o),
        Command::Fill(ask) => desk::fill::repeat_on(b, s, t, times, ask, lts, hashes),
        Command::Look(o) => desk::looks::answer(*b, *s, o, line),
    }
}

// Line by line, to the end of the input, to the first line that is no command, or until a write fails. The buffer, the tray and the shelf
// stay here; each command is lent what it goes to.
fn lines(
    chunk: &mut [u8],
    line: &mut [u8],
    numbers: &mut [u64],
    page: &mut [u8],
    lts: &mut [u64],
    hashes: &mut [u8],
    mut b: Buffer,
    mut t: Tray,
    mut s: Shelf,
    mut c: Course,
) -> Course
    requires { Ready b s t lts.old hashes.old × (c.reader.held ≤ 0) }
{
    // stays: the new form is no plainer: no index is counted; the course says whether there is more to read
    while intake::orders::goes_on(c) {
        let made = s.made;
        if let Some(order) = intake::orders::take(&mut c, made, chunk, line, numbers, page) {
            let reply = obeyed(order, &mut b, &mut t, &mut s, line, numbers, lts, hashes);
            let pen = overview::state::told(page, c.pen, reply, line, b, s, t, lts, hashes);
            c = intake::orders::with_pen(c, pen);
        }
    }
    c
}

// The whole run, and what waits on the page at its end.
fn run(
    from: Stdin,
    to: Stdout,
    chunk: &mut [u8],
    line: &mut [u8],
    numbers: &mut [u64],
    page: &mut [u8],
    lts: &mut [u64],
    hashes: &mut [u8],
)
    requires { KeyRoom lts.old hashes.old }
{
    let end = lines(
        chunk,
        line,
        numbers,
        page,
        lts,
        hashes,
        desk::buffer::fresh(),
        desk::tray::fresh(),
        desk::shelf::fresh(),
        intake::orders::fresh(from, to),
    );
    pages::out::flush(page, end.pen);
}

fn main(rt: HostRuntime) {
    let mut chunk = [0u8; 65536];
    let mut line = [0u8; 65537];
    let mut numbers = [0u64; 32768];
    let mut page = [0u8; 65536];
    let mut lts = [0u64; 2048];
    let mut hashes = [0u8; 65536];
    run(
        rt.stdin(),
        rt.stdout(),
        &mut chunk,
        &mut line,
        &mut numbers,
        &mut page,
        &mut lts,
        &mut hashes,
    );
}
