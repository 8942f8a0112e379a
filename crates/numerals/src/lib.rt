// A number in a text: decimal, with no zero in front, not above its limit, and ended by a stop byte.
#![tactic(auto)]

ghost use Rattle.std.specs.Prelude.{◌≡◌, ◌≤◌, length};
ghost use Rattle.sheet_rules.specs.Sheet.{plain as plain_by};
ghost use Rattle.numerals.specs.Steps.{bounded as bounded_by, ReadsNumber};

// A number that ends at a stop byte: its value, and where the text goes on behind the stop.
#[derive(Clone, Copy)]
pub struct Numeral {
    pub value: u64,
    pub next: usize,
}

// Whether a word has no zero in front of other bytes.
fn plain(word: &[u8]) -> bool
    ensures { result ≡ plain_by word.now }
{
    word.len() < 2 || word[0] != 48
}

// The number that a word stands for, if it is not above the limit; `next` is where the text goes on.
fn bounded(word: &[u8], limit: u64, next: usize) -> Option<Numeral>
    ensures { result ≡ bounded_by limit next word.now }
{
    if !plain(word) {
        return None;
    }
    let value = words::decimal::read(word)?;
    if limit < value {
        return None;
    }
    Some(Numeral { value, next })
}

// The number from `from` on that ends at the first byte `stop`.
pub fn read_number(text: &[u8], from: usize, stop: u8, limit: u64) -> Option<Numeral>
    requires { from ≤ length text.now }
    ensures { ReadsNumber text.now from stop limit result }
{
    let to = words::cut::until(text, from, stop);
    if text.len() <= to {
        return None;
    }
    bounded(&text[from..to], limit, to + 1)
}
