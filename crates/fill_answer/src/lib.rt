// What a fill is asked, what it answers, and how both stand in numbers for C and Rust.
#![tactic(auto)]

ghost use Rattle.std.specs.Prelude.{◌≡◌};
ghost use Rattle.fill_answer.specs.Answers.{answered, counts_in, filter_by};

use message::{Code, Filter};
use moves::Tally;

// What is asked of a fill by value: how many slots, how high, the filter, and the cost of an account without a skip row.
#[derive(Clone, Copy)]
pub struct Asked {
    pub slots: u64,
    pub height: u64,
    pub filter: Filter,
    pub cost: u64,
}

// stays: what may not change: a refused fill answers with its counts too (`refused` in `Fills`, crate `fill_rules`), so they stand beside the code.
// What a fill answers beside what it changes: its code, how many messages it collected, its operations, and how many it dropped.
#[derive(Clone, Copy)]
pub struct Answer {
    pub code: Code,
    pub collected: usize,
    pub operations: u64,
    pub dropped: usize,
}

// The answer of a fill whose run ended with these counts.
pub fn answer_of(code: Code, tally: Tally, dropped: usize) -> Answer
    ensures { result ≡ answered code tally dropped }
{
    Answer {
        code,
        collected: tally.taken,
        operations: tally.ops,
        dropped,
    }
}

// The counts of an answer: messages collected, operations, messages dropped.
pub fn counts(a: Answer) -> [u64; 3]
    ensures { result ≡ counts_in a }
{
    [a.collected as u64, a.operations, a.dropped as u64]
}

// A filter by two numbers: off if the first is 0, else below the second.
// stays: the C interface hands a filter over as two numbers.
pub fn filter_by(filtered: u8, below: u64) -> Filter
    ensures { result ≡ filter_by filtered below }
{
    if filtered == 0 {
        Filter::Off
    } else {
        Filter::Below(below)
    }
}
