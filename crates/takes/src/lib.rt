// The queue of a party, walked along its chain (`plan`, crate `moves`), so that no row of another is looked at: passing over it, counting it, taking
// from its front.
// stays: the three loops go from a row to the next of its chain and write the owners on the way, so they are no `for`: an iterator over the chain
// would need a type, an `impl` and contracts of its own, longer than the one line `i = next_of(plan, i)` that it would hide.
#![tactic(auto)]

ghost use Rattle.std.specs.Prelude.{◌≡◌, ◌+◌, ◌-◌, ◌<◌, ◌≤◌};
ghost use Rattle.columns.specs.Lists.{count_i};
ghost use Rattle.moves.specs.Moves.{lapsed as lapsed_of, pass_owners, take_c, TookIs, queued_c, wanted_c};
ghost use Rattle.moves.specs.Good.{live};
ghost use Rattle.moves.specs.Linked.{first_of, next_of, Linked};

use moves::Took;

const GONE: u16 = 65535;

const TAKEN: usize = 2048;

const PLACES: usize = 256;

const ROWS: usize = 1024;

const FIRSTS: usize = 2048;

// ---- the chain

// The first row of a party's queue. A party past the places has none.
#[tactic(auto, unfolding(moves::specs::Linked::first_of))]
fn first_of(plan: &[u16; 2304], party: usize) -> usize
    ensures { result ≡ first_of plan.now party }
{
    if party < PLACES {
        usize::from(plan[FIRSTS + party])
    } else {
        ROWS
    }
}

// The row behind a row in its queue.
fn next_of(plan: &[u16; 2304], row: usize) -> usize
    requires { row < 1024 }
    ensures { result ≡ next_of plan.now row }
{
    usize::from(plan[ROWS + row])
}

// ---- passing over

// Whether a row of this owner and class is a droppable one of a party.
fn lapsed(owner: u16, class: u16, party: usize) -> bool
    ensures { result ≡ lapsed_of party owner class }
{
    usize::from(owner) == party && class == 2
}

// Passes over a party: its droppable rows are dropped.
pub fn pass_over(owner: &mut [u16; 1024], plan: &[u16; 2304], rows: usize, party: usize)
    requires rows_bound { rows ≤ 1024 }
    requires linked { Linked plan.now rows owner.old × (party < 1280) }
    ensures { owner.new ≡ pass_owners plan.now rows party owner.old }
{
    let mut i = first_of(plan, party);
    while i < rows {
        if lapsed(owner[i], plan[i], party) {
            owner[i] = GONE;
        }
        i = next_of(plan, i);
    }
}

// ---- a take

// The lesser of the queue's length and of the remaining room, which is read anew at each visit. The queue is counted no further than there is
// room.
pub fn wanted(
    owner: &[u16; 1024],
    plan: &[u16; 2304],
    rows: usize,
    place: usize,
    height: usize,
    held: usize,
) -> usize
    requires rows_bound { rows ≤ 1024 }
    requires linked { Linked plan.now rows owner.now × (place < 1280) }
    ensures { result ≡ wanted_c (queued_c rows place owner.now) height held }
{
    if height <= held {
        return 0;
    }
    let room = height - held;
    let mut count: usize = 0;
    let mut i = first_of(plan, place);
    while i < rows {
        if room <= count {
            return room;
        }
        if usize::from(owner[i]) == place {
            count += 1;
        }
        i = next_of(plan, i);
    }
    count
}

// Takes rows from the front of the queue of a place until `wanted` are collected; their numbers go to `taken`, from `from` on. Droppable
// rows on the way are dropped and use no room.
pub fn take_front(
    owner: &mut [u16; 1024],
    plan: &[u16; 2304],
    rows: usize,
    place: usize,
    wanted: usize,
    taken: &mut [u16; 1024],
    from: usize,
) -> Took
    requires rows_bound { (rows ≤ 1024) × (place < 256) }
    requires owner_bound { from + count_i live rows 0 owner.old ≤ rows }
    requires linked { Linked plan.now rows owner.old }
    ensures { TookIs (take_c place plan.now wanted rows 0 owner.old) from wanted taken.old owner.new taken.new result.got result.ints result.pops }
{
    let mut i = first_of(plan, place);
    let mut got: usize = 0;
    let mut ints: usize = 0;
    let mut pops: usize = 0;
    while i < rows {
        if wanted <= got {
            return Took { got, ints, pops };
        }
        if usize::from(owner[i]) == place {
            pops += 1;
            let k = plan[i];
            if k == 2 {
                owner[i] = GONE;
            } else {
                owner[i] = (TAKEN + place) as u16;
                taken[from + got] = i as u16;
                got += 1;
                if k == 0 {
                    ints += 1;
                }
            }
        }
        i = next_of(plan, i);
    }
    Took { got, ints, pops }
}
