// The end of a fill: the rest of the order is passed over, and the counts are closed.
#![tactic(auto)]

ghost use Rattle.std.specs.Prelude.{◌≡◌, ◌+◌, ◌-◌, ◌≤◌};
ghost use Rattle.moves.specs.Moves.{costs};
ghost use Rattle.meaning.specs.Passes.{lapsed_from, sweep_owners, left_c};

use moves::{Fixed, Tally};

// The counts of a fill at its end, and how many messages were dropped.
#[derive(Clone, Copy)]
pub struct Ended {
    pub tally: Tally,
    pub dropped: usize,
}

const GONE: u16 = 65535;

// Whether a row of this owner and class is a droppable one of a place from `from` to below `to`.
fn lapsed(owner: u16, class: u16, from: usize, to: usize) -> bool
    ensures { result ≡ lapsed_from from to owner class }
{
    // The class first, and alone. Joined by `&&`, all three tests are made of every row, which takes up to twice the instructions.
    if class == 2 {
        let place = usize::from(owner);
        if from <= place {
            return place < to;
        }
    }
    false
}

// The rest of the order, the places from `from` to below `to`, is passed over.
pub fn sweep(owner: &mut [u16; 1024], plan: &[u16; 2304], rows: usize, from: usize, to: usize)
    requires { rows ≤ 1024 }
    ensures { owner.new ≡ sweep_owners plan.now rows from to owner.old }
{
    for i in 0..rows {
        if lapsed(owner[i], plan[i], from, to) {
            owner[i] = GONE;
        }
    }
}

// How many rows are still held: their owner is a place.
fn count_left(owner: &[u16; 1024], rows: usize, places: usize) -> usize
    requires { rows ≤ 1024 }
    ensures { result ≡ left_c rows places owner.now }
{
    // A `for` and no `filter` and `count`, as in `packing::count_owned`.
    let mut count: usize = 0;
    for i in 0..rows {
        if usize::from(owner[i]) < places {
            count += 1;
        }
    }
    count
}

// The end: one operation for each account of the order; what is neither held nor taken was dropped.
pub fn finish(owner: &[u16; 1024], fixed: Fixed, tally: Tally) -> Ended
    requires rows_bound { fixed.rows ≤ 1024 }
    requires taken_bound { left_c fixed.rows fixed.places owner.now + tally.taken ≤ fixed.rows }
    ensures { (result.tally ≡ costs tally fixed.places) × (result.dropped ≡ fixed.rows - left_c fixed.rows fixed.places owner.now - tally.taken) }
{
    let left = count_left(owner, fixed.rows, fixed.places);
    Ended {
        tally: tally.spend(fixed.places as u64),
        dropped: fixed.rows - left - tally.taken,
    }
}
