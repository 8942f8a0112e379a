// What is printed of a line: its echo, the answer, and that it is no command; and how a name and a message are printed.
use crate::out;
use crate::out::Pen;
use message::Message;
use scenario::replies::Reply;

// A word and a number.
pub fn named(page: &mut [u8], pen: Pen, word: &[u8], n: u64) -> Pen {
    let said = out::text(page, pen, word);
    out::number(page, said, n)
}

// The line as it stands.
pub fn echo(page: &mut [u8], pen: Pen, line: &[u8]) -> Pen {
    let mark = out::text(page, pen, b"> ");
    let said = out::text(page, mark, line);
    out::text(page, said, b"\n")
}

// The line that is no command.
pub fn bad_line(page: &mut [u8], pen: Pen, number: u64) -> Pen {
    out::form(page, pen, b"bad line 0\n", &[number])
}

// The first n bytes of a text and an LF; the LF alone where it has fewer.
fn line_of(page: &mut [u8], pen: Pen, text: &[u8], n: usize) -> Pen {
    let said = out::text(page, pen, text.get(..n).unwrap_or(&[]));
    out::text(page, said, b"\n")
}

// The answer. What it says of a text stands at the start of the one that is lent.
pub fn reply(page: &mut [u8], pen: Pen, r: Reply, text: &[u8]) -> Pen {
    match r {
        Reply::Code(code) => out::form(page, pen, b"code 0\n", &[u64::from(code)]),
        Reply::Fill(code, collected, ops, dropped) => out::form(
            page,
            pen,
            b"code 0 collected 1 ops 2 dropped 3\n",
            &[u64::from(code), collected as u64, ops, dropped as u64],
        ),
        Reply::IsFilled(yes) => out::form(page, pen, b"filled 0\n", &[u64::from(yes)]),
        Reply::Full(count, slots) => out::form(
            page,
            pen,
            b"full 0 canfill 1\n",
            &[u64::from(count), u64::from(slots)],
        ),
        Reply::Text(n) => line_of(page, pen, text, n),
    }
}

// One space in front of each part of a row but the first.
fn space(page: &mut [u8], pen: Pen, i: usize) -> Pen {
    if i == 0 {
        pen
    } else {
        out::text(page, pen, b" ")
    }
}

// The i-th message of a row, by its kind, its time and its hash: one space stands before each but the first.
pub fn spaced(page: &mut [u8], pen: Pen, i: usize, m: Message) -> Pen {
    let said = space(page, pen, i);
    let numbers = [u64::from(m.kind), m.time, words::name::number_in(m.hash)];
    out::form(page, said, b"0:1:2", &numbers)
}

// The i-th number of a row, likewise.
pub fn spaced_number(page: &mut [u8], pen: Pen, i: usize, n: u64) -> Pen {
    let said = space(page, pen, i);
    out::number(page, said, n)
}
