// What is only looked at.
ghost use Rattle.lintelsong.specs.Closed.{GoodBuffer, GoodGroup};
ghost use Rattle.desk.specs.Desks.{GoodShelf};

use crate::shelf;
use crate::shelf::Shelf;
use lintelsong::{Buffer, Group};
use scenario::commands::Look;
use scenario::replies::Reply;

// Whether a group is filled.
fn is_filled(g: Group, slots: u64, height: u64) -> Reply
    requires { GoodGroup g }
{
    Reply::IsFilled(g.check_is_filled(slots, height as usize))
}

// Whether the buffer is full, by count and by slots.
fn full(b: Buffer, limit: u64) -> Reply
    requires { GoodBuffer b }
{
    let f = b.check_is_filled(limit);
    Reply::Full(f.count, f.slots)
}

// The answer to a look, whose text is written to the start of what is lent. To look again changes nothing.
pub fn answer(b: Buffer, s: Shelf, o: Look, text: &mut [u8]) -> Reply
    requires { GoodBuffer b × GoodShelf s }
{
    match o {
        Look::IsFilled(place, slots, height) => is_filled(shelf::at(&s, place), slots, height),
        Look::Full(limit) => full(b, limit),
        Look::Display(place) => {
            let g = shelf::at(&s, place);
            Reply::Text(g.display(text))
        }
    }
}
