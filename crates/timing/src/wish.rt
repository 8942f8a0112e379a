// The line that says what is to be timed: five numbers. A word that is missing or is no number reads as 0.
use words::{cut, decimal};

// What the line says.
#[derive(Clone, Copy)]
pub struct Wish {
    pub slots: u64,
    pub height: u64,
    pub filter: bool,
    pub refused: bool,
    pub repeats: u64,
}

// The number that a word stands for.
fn value(word: &[u8]) -> u64 {
    decimal::read(word).unwrap_or(0)
}

// The number of word k, from 0.
fn nth(line: &[u8], k: usize) -> u64 {
    let mut at: usize = 0;
    for _ in 0..k {
        at = cut::word(line, at).to;
    }
    let word = cut::word(line, at);
    value(&line[word.from..word.to])
}

// What a line without its LF says.
fn said(line: &[u8]) -> Wish {
    Wish {
        slots: nth(line, 0),
        height: nth(line, 1),
        filter: nth(line, 2) == 1,
        refused: nth(line, 3) == 1,
        repeats: nth(line, 4),
    }
}

// What the first line of a text says.
pub fn read(text: &[u8]) -> Wish {
    let end = cut::until(text, 0, 10);
    said(&text[..end])
}
