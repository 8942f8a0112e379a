// A line read as a command. Every word after a command's name is a number; the numbers are put on a list that is lent.
use crate::verbs;
use crate::verbs::Verb;
use words::{cut, decimal};

// A message as a scenario names it.
#[derive(Clone, Copy)]
pub struct Record {
    pub kind: u8,
    pub special: bool,
    pub other: bool,
    pub account: u64,
    pub time: u64,
    pub hash: u64,
}

// A skip row: the account, 1 if it is skipped and 0 if not, and what a check of it costs.
#[derive(Clone, Copy)]
pub struct SkipRow {
    pub account: u64,
    pub verdict: u8,
    pub cost: u64,
}

// What a fill is asked for. Without a filter the threshold says nothing.
#[derive(Clone, Copy)]
pub struct Ask {
    pub group: usize,
    pub slots: u64,
    pub height: u64,
    pub filter: bool,
    pub threshold: u64,
}

// An order to the buffer. The names of a removal stand on the list.
#[derive(Clone, Copy)]
pub enum BufferOrder {
    SetUp(u64, u64),
    Add(Record),
    Remove,
    Begin,
    Commit,
    Rollback,
}

// An order to what is laid ready for a fill, or to print states or not.
#[derive(Clone, Copy)]
pub enum TrayOrder {
    Rows,
    Row(SkipRow),
    Cost(u64),
    Set,
    Keys(usize),
    Quiet,
    Loud,
}

// An order to the groups: one is set up, or the second is joined to the first. A group is named by its place.
#[derive(Clone, Copy)]
pub enum ShelfOrder {
    SetUp(usize, u64),
    Join(usize, usize),
}

// What is only looked at: whether a group is filled, whether the buffer is full, and a group's Display line.
#[derive(Clone, Copy)]
pub enum Look {
    IsFilled(usize, u64, u64),
    Full(u64),
    Display(usize),
}

// A command, by what it goes to.
#[derive(Clone, Copy)]
pub enum Command {
    Buffer(BufferOrder),
    Tray(TrayOrder),
    Shelf(ShelfOrder),
    Fill(Ask),
    Look(Look),
}

// A command to be done so many times, with how many numbers on the list.
// stays: the rule of fixed memory: the numbers lie on a list that is lent, so that an order is small and can be copied.
#[derive(Clone, Copy)]
pub struct Order {
    pub times: u64,
    pub numbers: usize,
    pub command: Command,
}

// A line that is no command.
#[derive(Clone, Copy, Debug, PartialEq, Eq)]
pub struct BadLine;

// Reads the words from `at` on as numbers, and says how many there are; none where a word is no number. There is room for all that a line of
// 65,536 bytes can hold.
fn numbers_from(line: &[u8], at: usize, numbers: &mut [u64]) -> Option<usize> {
    let mut here = at;
    for (n, place) in numbers.iter_mut().enumerate() {
        let w = cut::word(line, here);
        if w.from == w.to {
            return Some(n);
        }
        *place = decimal::read(&line[w.from..w.to])?;
        here = w.to;
    }
    None
}

// Number i of the list; 0 past its end.
fn at(numbers: &[u64], i: usize) -> u64 {
    numbers.get(i).copied().unwrap_or(0)
}

// A number that is 0 or 1.
fn flag(n: u64) -> Option<bool> {
    match n {
        0 => Some(false),
        1 => Some(true),
        _ => None,
    }
}

// A number below a limit, as a place or a count.
fn below(limit: usize, n: u64) -> Option<usize> {
    let count = usize::try_from(n).ok()?;
    (count < limit).then_some(count)
}

// The record of an add: the kind is a byte.
fn message(numbers: &[u64]) -> Option<Record> {
    Some(Record {
        kind: u8::try_from(at(numbers, 0)).ok()?,
        special: flag(at(numbers, 1))?,
        other: flag(at(numbers, 2))?,
        account: at(numbers, 3),
        time: at(numbers, 4),
        hash: at(numbers, 5),
    })
}

// One more skip row.
fn skip_row(numbers: &[u64]) -> Option<SkipRow> {
    Some(SkipRow {
        account: at(numbers, 0),
        verdict: u8::from(flag(at(numbers, 1))?),
        cost: at(numbers, 2),
    })
}

// The join of two of the `made` groups that are there, not of one with itself.
fn join(numbers: &[u64], made: usize) -> Option<ShelfOrder> {
    let left = below(made, at(numbers, 0))?;
    let right = below(made, at(numbers, 1))?;
    (left != right).then_some(ShelfOrder::Join(left, right))
}

// The fill of one of the `made` groups that are there.
fn fill(numbers: &[u64], made: usize) -> Option<Ask> {
    Some(Ask {
        group: below(made, at(numbers, 0))?,
        slots: at(numbers, 1),
        height: at(numbers, 2),
        filter: flag(at(numbers, 3))?,
        threshold: at(numbers, 4),
    })
}

// What a verb says with as many numbers as it takes, where `made` groups are there. A set-up is of one of four groups, and a key list has
// at most 2,048 rows.
fn command_of(verb: Verb, numbers: &[u64], made: usize) -> Option<Command> {
    let first = at(numbers, 0);
    let second = at(numbers, 1);
    Some(match verb {
        Verb::Buffer => Command::Buffer(BufferOrder::SetUp(first, second)),
        Verb::Add => Command::Buffer(BufferOrder::Add(message(numbers)?)),
        Verb::Remove => Command::Buffer(BufferOrder::Remove),
        Verb::Begin => Command::Buffer(BufferOrder::Begin),
        Verb::Commit => Command::Buffer(BufferOrder::Commit),
        Verb::Rollback => Command::Buffer(BufferOrder::Rollback),
        Verb::Rows => Command::Tray(TrayOrder::Rows),
        Verb::Row => Command::Tray(TrayOrder::Row(skip_row(numbers)?)),
        Verb::Cost => Command::Tray(TrayOrder::Cost(first)),
        Verb::Set => Command::Tray(TrayOrder::Set),
        Verb::Keys => Command::Tray(TrayOrder::Keys(below(2049, first)?)),
        Verb::Quiet => Command::Tray(TrayOrder::Quiet),
        Verb::Loud => Command::Tray(TrayOrder::Loud),
        Verb::Group => Command::Shelf(ShelfOrder::SetUp(below(4, first)?, second)),
        Verb::Join => Command::Shelf(join(numbers, made)?),
        Verb::Fill => Command::Fill(fill(numbers, made)?),
        Verb::IsFilled => Command::Look(Look::IsFilled(
            below(made, first)?,
            second,
            at(numbers, 2),
        )),
        Verb::Full => Command::Look(Look::Full(first)),
        Verb::Display => Command::Look(Look::Display(below(made, first)?)),
    })
}

// The command whose name stands first from `here` on, so many times. There are `made` groups.
fn ordered(
    times: u64,
    line: &[u8],
    here: usize,
    made: usize,
    numbers: &mut [u64],
) -> Option<Order> {
    let w = cut::word(line, here);
    let verb = verbs::verb_of(&line[w.from..w.to])?;
    let n = numbers_from(line, w.to, numbers)?;
    if !verbs::takes(verb, n) {
        return None;
    }
    let command = command_of(verb, numbers, made)?;
    Some(Order {
        times,
        numbers: n,
        command,
    })
}

// A command that is repeated: how often, from 1 on, stands first from `here` on.
fn repeated(line: &[u8], here: usize, made: usize, numbers: &mut [u64]) -> Option<Order> {
    let w = cut::word(line, here);
    let times = decimal::read(&line[w.from..w.to])?;
    if times == 0 {
        return None;
    }
    ordered(times, line, w.to, made, numbers)
}

// Reads a line, where `made` groups are set up: the order that it is, none where it asks for nothing. One longer than 65,536 bytes is no
// command, whatever it begins with.
pub fn read(line: &[u8], made: usize, numbers: &mut [u64]) -> Result<Option<Order>, BadLine> {
    if 65536 < line.len() {
        return Err(BadLine);
    }
    let w = cut::word(line, 0);
    if w.to <= w.from || line[w.from] == b'#' {
        return Ok(None);
    }
    let read = if &line[w.from..w.to] == b"times".as_slice() {
        repeated(line, w.to, made, numbers)
    } else {
        ordered(1, line, w.from, made, numbers)
    };
    Ok(Some(read.ok_or(BadLine)?))
}
