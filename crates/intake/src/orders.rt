// How far a run is, and the next line taken: read as a command, and echoed.
ghost use Rattle.std.specs.Prelude.{true, ◌≡◌, ◌<◌, ◌≤◌, length};
ghost use Rattle.intake.specs.Lines.{Goes, Taking};

use crate::input;
use crate::input::Reader;
use pages::out::Pen;
use scenario::commands::Order;
use std::io::{Stdin, Stdout};

// How far a run is: how many lines are taken, what is left of the input, the pen, and whether it goes on.
#[derive(Clone, Copy)]
pub struct Course {
    pub number: u64,
    pub reader: Reader,
    pub pen: Pen,
    pub on: bool,
}

// The start of a run.
pub fn fresh(from: Stdin, to: Stdout) -> Course
    ensures { result.reader.held ≤ 0 }
{
    Course {
        number: 0,
        reader: input::fresh(from),
        pen: pages::out::fresh(to),
        on: true,
    }
}

// Whether a run goes on: it has not ended, and its lines can still be counted.
pub fn goes_on(c: Course) -> bool
    ensures { result ≡ true → c.number < 18446744073709551615 }
{
    c.on && c.number < u64::MAX
}

// The course with another pen. It ends where a write fails.
pub fn with_pen(c: Course, pen: Pen) -> Course
    ensures { (result.number ≡ c.number) × (result.reader.held ≡ c.reader.held) }
{
    Course {
        pen,
        on: !pen.failed,
        ..c
    }
}

// The next line, where `made` groups are set up, and what it orders: echoed, if it is a command. A line that is no command ends the run, as
// the end of the input does.
pub fn take(
    c: &mut Course,
    made: usize,
    chunk: &mut [u8],
    line: &mut [u8],
    numbers: &mut [u64],
    page: &mut [u8],
) -> Option<Order>
    requires { Goes c.old (length chunk.old) }
    ensures { Taking c.old c.new (length chunk.new) }
{
    c.number += 1;
    let Some(size) = input::next(chunk, line, &mut c.reader) else {
        c.on = false;
        return None;
    };
    let said = &line[..size];
    let Ok(read) = scenario::commands::read(said, made, numbers) else {
        c.pen = pages::show::bad_line(page, c.pen, c.number);
        c.on = false;
        return None;
    };
    if read.is_some() {
        c.pen = pages::show::echo(page, c.pen, said);
    }
    read
}
