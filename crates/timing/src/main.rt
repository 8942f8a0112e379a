// Does one fill over and over on the same full buffer, so that it can be timed from outside (tools/speed). It reads one line, `slots height
// filter refused repeats`, and prints one: over all fills, how many messages were collected, the operations, and how many were dropped; then
// what the last one left, messages in the buffer, and slots, accounts and messages in the group.
#![tactic(auto)]

ghost use Rattle.lintelsong.specs.Closed.{GoodBuffer};
ghost use Rattle.timing.specs.Fills.{GoodAnswer};

mod load;
mod wish;

use fill_answer::Asked;
use lintelsong::fill_calls::FillAnswer;
use lintelsong::{Buffer, Group, Skipped};
use message::Filter;
use std::io;
use std::io::Stdout;
use wish::Wish;

// Sums over all fills, each held at 2^64 - 1.
#[derive(Clone, Copy)]
struct Sums {
    collected: u64,
    operations: u64,
    dropped: u64,
}

// The sums, and what the last fill answered.
#[derive(Clone, Copy)]
struct Told {
    sums: Sums,
    last: FillAnswer,
}

// The sums with one more fill.
fn with(s: Sums, collected: usize, operations: u64, dropped: usize) -> Sums {
    Sums {
        collected: numbers::saturating_sum(s.collected, collected as u64),
        operations: numbers::saturating_sum(s.operations, operations),
        dropped: numbers::saturating_sum(s.dropped, dropped as u64),
    }
}

// What is asked of each fill. One that is to be refused asks for more slots than the group has room for: code 9.
fn asked_by(w: Wish) -> Asked {
    let filter = if w.filter {
        Filter::Below(load::THRESHOLD)
    } else {
        Filter::Off
    };
    Asked {
        slots: if w.refused { 65 } else { w.slots },
        height: w.height,
        filter,
        cost: 1,
    }
}

// One fill: a fresh group of 64 slots, an empty set, no skip row.
fn fill(full: Buffer, asked: Asked, lts: &mut [u64], hashes: &mut [u8]) -> FillAnswer
    requires { GoodBuffer full }
    ensures { GoodAnswer result }
{
    let made = Group::set_up(64);
    let group = made.group;
    let set = Skipped::fresh();
    let costs = [0u64; 1];
    full.fill(group, set, asked, b"", b"", &costs, lts, hashes)
}

// The fills, once at least.
fn run(full: Buffer, asked: Asked, repeats: u64, lts: &mut [u64], hashes: &mut [u8]) -> Told
    requires { GoodBuffer full }
    ensures { GoodAnswer result.last }
{
    let mut last = fill(full, asked, lts, hashes);
    let none = Sums {
        collected: 0,
        operations: 0,
        dropped: 0,
    };
    let mut sums = with(none, last.collected, last.operations, last.dropped);
    for _ in 1..repeats {
        last = fill(full, asked, lts, hashes);
        sums = with(sums, last.collected, last.operations, last.dropped);
    }
    Told { sums, last }
}

// Prints a number and a byte behind it.
fn put(stdout: Stdout, n: u64, behind: &[u8]) -> io::Result<()> {
    let mut digits = [0u8; 20];
    let many = words::decimal::write(n, &mut digits);
    stdout.write_all(&digits[..many])?;
    stdout.write_all(behind)
}

// Prints the sums over all fills.
fn show_sums(stdout: Stdout, s: Sums) -> io::Result<()> {
    put(stdout, s.collected, b" ")?;
    put(stdout, s.operations, b" ")?;
    put(stdout, s.dropped, b" ")
}

// Prints what the last fill left in the buffer and in the group.
fn show_left(
    stdout: Stdout,
    left: u64,
    slots: u64,
    accounts: u64,
    messages: u64,
) -> io::Result<()> {
    put(stdout, left, b" ")?;
    put(stdout, slots, b" ")?;
    put(stdout, accounts, b" ")?;
    put(stdout, messages, b"\n")
}

// Prints the line.
fn show(stdout: Stdout, r: Told) -> io::Result<()>
    requires { GoodAnswer r.last }
{
    let last = r.last;
    let buffer = last.buffer;
    let group = last.group;
    let left = buffer.counts();
    let got = group.counts();
    show_sums(stdout, r.sums)?;
    show_left(stdout, left.messages, got.slots, got.accounts, got.messages)
}

fn main(rt: HostRuntime) -> io::Result<()> {
    let mut line = [0u8; 4096];
    let n = reading::full(&mut rt.stdin(), &mut line)?;
    let w = wish::read(&line[..n]);
    // room for the key list, one row a message
    let mut lts = [0u64; 1024];
    let mut hashes = [0u8; 32768];
    let r = run(load::full(), asked_by(w), w.repeats, &mut lts, &mut hashes);
    show(rt.stdout(), r)
}
