// The fill of a group from the buffer, with what is laid ready on the tray.
ghost use Rattle.lintelsong.specs.Closed.{GoodBuffer, GoodGroup};
ghost use Rattle.desk.specs.Desks.{GoodShelf, GoodTray, KeyRoom};
ghost use Rattle.desk.specs.Shelves.{FillsAt, Laid};

use crate::shelf;
use crate::shelf::Shelf;
use crate::tray::Tray;
use fill_answer::Asked;
use lintelsong::{Buffer, Group};
use message::Filter;
use scenario::commands::Ask;
use scenario::replies::Reply;

// What fills leave, and the answer.
#[derive(Clone, Copy)]
pub struct Filled {
    pub buffer: Buffer,
    pub shelf: Shelf,
    pub tray: Tray,
    pub reply: Reply,
}

// What is asked of a fill, with the cost of an account without a row.
fn asked(ask: Ask, cost: u64) -> Asked {
    let filter = if ask.filter {
        Filter::Below(ask.threshold)
    } else {
        Filter::Off
    };
    Asked {
        slots: ask.slots,
        height: ask.height,
        filter,
        cost,
    }
}

// Fills a group once, with the tray. The key list is as long as the tray says.
fn once(
    b: &mut Buffer,
    g: &mut Group,
    t: &mut Tray,
    ask: Ask,
    lts: &mut [u64],
    hashes: &mut [u8],
) -> Reply
    requires { GoodBuffer b.old × GoodGroup g.old × GoodTray t.old × KeyRoom lts.old hashes.old }
    ensures good { GoodBuffer b.new × GoodGroup g.new × GoodTray t.new }
    ensures laid { Laid t.old t.new }
{
    let size = 32 * t.rows;
    let rows = t.keys;
    let bytes = 32 * rows;
    let a = b.fill(
        *g,
        t.skipped,
        asked(ask, t.cost),
        &t.names[..size],
        &t.verdicts,
        &t.costs,
        &mut lts[..rows],
        &mut hashes[..bytes],
    );
    *b = a.buffer;
    *g = a.group;
    t.skipped = a.skipped;
    Reply::Fill(
        message::number_of(a.code),
        a.collected,
        a.operations,
        a.dropped,
    )
}

// Fills a group so many times, once at least; the answer is the last one.
fn repeated(
    b: &mut Buffer,
    g: &mut Group,
    t: &mut Tray,
    times: u64,
    ask: Ask,
    lts: &mut [u64],
    hashes: &mut [u8],
) -> Reply
    requires { GoodBuffer b.old × GoodGroup g.old × GoodTray t.old × KeyRoom lts.old hashes.old }
    ensures good { GoodBuffer b.new × GoodGroup g.new × GoodTray t.new }
    ensures laid { Laid t.old t.new }
{
    let mut reply = once(b, g, t, ask, lts, hashes);
    for _ in 1..times {
        reply = once(b, g, t, ask, lts, hashes);
    }
    reply
}

// Fills a group of the shelf so many times, once at least; the answer is the last one. All three are lent: together they are too large to
// be handed from call to call.
pub fn repeat_on(
    b: &mut Buffer,
    s: &mut Shelf,
    t: &mut Tray,
    times: u64,
    ask: Ask,
    lts: &mut [u64],
    hashes: &mut [u8],
) -> Reply
    requires { GoodBuffer b.old × GoodShelf s.old × GoodTray t.old × KeyRoom lts.old hashes.old }
    ensures good { GoodBuffer b.new × GoodShelf s.new × GoodTray t.new }
    ensures filled { FillsAt ask.group s.old s.new }
    ensures laid { Laid t.old t.new }
{
    let mut g = shelf::at(s, ask.group);
    let reply = repeated(b, &mut g, t, times, ask, lts, hashes);
    shelf::put(s, ask.group, g);
    reply
}

// The same of the three by value.
// stays: what may not change: this is public and keeps its contract, a call of `repeat_on`.
pub fn repeat(
    b: Buffer,
    s: Shelf,
    t: Tray,
    times: u64,
    ask: Ask,
    lts: &mut [u64],
    hashes: &mut [u8],
) -> Filled
    requires { GoodBuffer b × GoodShelf s × GoodTray t × KeyRoom lts.old hashes.old }
    ensures { GoodBuffer result.buffer × GoodShelf result.shelf × GoodTray result.tray }
{
    let mut buffer = b;
    let mut shelf = s;
    let mut tray = t;
    let reply = repeat_on(&mut buffer, &mut shelf, &mut tray, times, ask, lts, hashes);
    Filled {
        buffer,
        shelf,
        tray,
        reply,
    }
}
