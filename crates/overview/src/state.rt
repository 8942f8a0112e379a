// What is told after a command: its answer, and, while loud, the state: the buffer, the groups that are set up, the skipped set and the key
// list.
ghost use Rattle.std.specs.Prelude.{◌≤◌};
ghost use Rattle.lintelsong.specs.Closed.{GoodBuffer};
ghost use Rattle.desk.specs.Desks.{GoodShelf, GoodTray, KeyRoom};

use crate::group_lines;
use desk::shelf::Shelf;
use desk::tray::Tray;
use lintelsong::Buffer;
use pages::out::Pen;
use printout::{buffer_lines, rest_lines};
use scenario::replies::Reply;

// The lines of the groups that are set up.
fn groups(page: &mut [u8], pen: Pen, s: Shelf) -> Pen
    requires { GoodShelf s }
{
    let mut p = pen;
    for place in 0..s.made.min(4) {
        p = group_lines::group(page, p, place, desk::shelf::at(&s, place));
    }
    p
}

// All of it.
fn state(page: &mut [u8], pen: Pen, b: Buffer, s: Shelf, t: Tray, lts: &[u64], hashes: &[u8]) -> Pen
    requires { GoodBuffer b × GoodShelf s × GoodTray t × KeyRoom lts.now hashes.now }
{
    let mut p = buffer_lines::buffer_line(page, pen, b);
    p = buffer_lines::queues(page, p, b);
    p = groups(page, p, s);
    p = rest_lines::skipped(page, p, t.skipped);
    rest_lines::keys(page, p, lts, hashes, t.keys)
}

// The answer, whose text, if it has one, stands at the start of what is lent, and the state while the tray is loud.
pub fn told(
    page: &mut [u8],
    pen: Pen,
    reply: Reply,
    text: &[u8],
    b: Buffer,
    s: Shelf,
    t: Tray,
    lts: &[u64],
    hashes: &[u8],
) -> Pen
    requires { GoodBuffer b × GoodShelf s × GoodTray t × KeyRoom lts.now hashes.now }
{
    let answered = pages::show::reply(page, pen, reply, text);
    if t.loud {
        return state(page, answered, b, s, t, lts, hashes);
    }
    answered
}
