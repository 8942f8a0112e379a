// Buffered writing to standard output. Bytes wait on a page that is lent, and leave when it is full or at the end of the run.

use std::io::{Print, Stdout};

// Where to write, how many bytes wait on the page, and whether a write failed. After that nothing more is written.
// stays: the rule of fixed memory: the page is lent beside the pen, and how much of it is used is the pen's.
#[derive(Clone, Copy)]
pub struct Pen {
    pub to: Stdout,
    pub used: usize,
    pub failed: bool,
}

// An empty page.
pub fn fresh(to: Stdout) -> Pen {
    Pen {
        to,
        used: 0,
        failed: false,
    }
}

// Writes out what waits.
pub fn flush(page: &[u8], mut pen: Pen) -> Pen {
    if pen.failed {
        return pen;
    }
    let Some(waiting) = page.get(..pen.used) else {
        return pen;
    };
    pen.failed = pen.to.write_all(waiting).is_err();
    pen.used = 0;
    pen
}

// Puts one byte on the page, after a flush if it is full.
fn byte(page: &mut [u8], mut pen: Pen, b: u8) -> Pen {
    if page.len() <= pen.used {
        pen = flush(page, pen);
    }
    let at = pen.used;
    if at < page.len() {
        page[at] = b;
        pen.used = at + 1;
    }
    pen
}

// Puts bytes on the page.
pub fn text(page: &mut [u8], mut pen: Pen, bytes: &[u8]) -> Pen {
    for &b in bytes {
        pen = byte(page, pen, b);
    }
    pen
}

// Puts a number on the page, in decimal.
pub fn number(page: &mut [u8], pen: Pen, n: u64) -> Pen {
    let mut digits = [0u8; 20];
    let k = words::decimal::write(n, &mut digits);
    text(page, pen, &digits[..k])
}

// Puts a byte on the page; for a digit that names one of the numbers by its place, that number.
fn part(page: &mut [u8], pen: Pen, b: u8, numbers: &[u64]) -> Pen {
    let named = b
        .checked_sub(b'0')
        .and_then(|place| numbers.get(usize::from(place)));
    match named {
        Some(&n) => number(page, pen, n),
        None => byte(page, pen, b),
    }
}

// Puts a form on the page: bytes in which a digit stands for a number, 0 for the first of them. There are ten at the most.
pub fn form(page: &mut [u8], mut pen: Pen, bytes: &[u8], numbers: &[u64]) -> Pen {
    for &b in bytes {
        pen = part(page, pen, b, numbers);
    }
    pen
}
