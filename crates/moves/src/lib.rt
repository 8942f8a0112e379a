// What a check and a move write, on lent columns of numbers and the record of a slot, which comes back as it is then. An account is a number,
// its party; the parties below `places` are the accounts of the order, by their place. A message is a row: `owner` is the party whose queue
// holds it, or a mark of a row that was taken or dropped.
// `plan` does not change in a fill: cells 0 to 1,023 are the class of each row, 0 for an internal, 1 for an external, 2 for a droppable one;
// 1,024 to 2,047 the next row of the same queue; 2,048 to 2,303 the first row of each place.
// stays: marks, classes, homes and rows are numbers in columns and no enums or slices. The columns are the lent memory of a fill, fixed in size,
// and every theorem of the passes speaks of them as lists of numbers (specs/Moves.antt).
#![tactic(auto)]

ghost use Rattle.std.specs.Prelude.{◌≡◌, ◌+◌, ◌-◌, ◌<◌, ◌≤◌, eqb};
ghost use Rattle.moves.specs.Moves.{costs, marks, check_marks, homes, enter_homes, nowhere};
ghost use Rattle.moves.specs.Good.{GoodMarks, many};

// The counts of a fill: parties that joined the skipped set, accounts in the group, rows taken, operations.
#[derive(Clone, Copy)]
pub struct Tally {
    pub joined: usize,
    pub accounts: usize,
    pub taken: usize,
    pub ops: u64,
}

impl Tally {
    // The counts with so many operations more; they stop at the greatest number.
    pub fn spend(self, ops: u64) -> Tally
        ensures { result ≡ costs self ops }
    {
        Tally {
            ops: numbers::saturating_sum(self.ops, ops),
            ..self
        }
    }
}

// What a fill does not change: how many rows and places there are, and the height.
#[derive(Clone, Copy)]
pub struct Fixed {
    pub rows: usize,
    pub places: usize,
    pub height: usize,
}

// The record of a slot: how many internals and how many externals it holds.
#[derive(Clone, Copy)]
pub struct Slot {
    pub ints: u8,
    pub exts: u8,
}

// What a take got: messages collected, the internals among them, and rows popped from the queue.
#[derive(Clone, Copy)]
pub struct Took {
    pub got: usize,
    pub ints: usize,
    pub pops: usize,
}

const NOWHERE: u8 = 255;

// ---- a check

// A check of a party: in the skipped set, 1 operation; else its cost, and one whose row says skip joins the set.
pub fn check(
    mark: &mut [u8; 1280],
    cost: &[u64; 1280],
    joined: &mut [u16; 1280],
    party: usize,
    tally: Tally,
) -> Tally
    requires good_marks { GoodMarks (marks mark.old joined.old tally) }
    requires party_bound { party < 1280 }
    ensures { marks mark.new joined.new result ≡ check_marks cost.now party (marks mark.old joined.old tally) }
{
    let m = mark[party];
    if m == 2 {
        return tally.spend(1);
    }
    let spent = tally.spend(cost[party]);
    if m == 1 {
        mark[party] = 2;
        joined[tally.joined] = party as u16;
        return Tally {
            joined: tally.joined + 1,
            ..spent
        };
    }
    spent
}

// ---- a slot, and who is in the group

// How many messages a slot holds.
pub fn held(record: Slot) -> usize
    ensures { result ≡ «record».ints + «record».exts }
{
    usize::from(record.ints) + usize::from(record.exts)
}

// The slot's counts grow by what was taken.
pub fn grow(record: Slot, took: Took) -> Slot
    requires { (took.ints ≤ took.got) × («record».ints + «record».exts + took.got ≤ 16) }
    ensures { (result.ints ≡ «record».ints + took.ints) × (result.exts ≡ «record».exts + (took.got - took.ints)) }
{
    Slot {
        ints: (usize::from(record.ints) + took.ints) as u8,
        exts: (usize::from(record.exts) + (took.got - took.ints)) as u8,
    }
}

// After a take: a party that is new to the group enters it at the slot; where nothing was got its list goes again, at one operation.
pub fn enter(
    home: &mut [u8; 1280],
    member: &mut [u16; 1280],
    party: usize,
    slot: usize,
    got: usize,
    tally: Tally,
) -> Tally
    requires party_bound { (party < 1280) × (slot < 64) }
    requires home_bound { tally.accounts + many (eqb nowhere) home.old ≤ 1280 }
    ensures { homes home.new member.new result ≡ enter_homes party slot got (homes home.old member.old tally) }
{
    if home[party] != NOWHERE {
        return tally;
    }
    if got == 0 {
        return tally.spend(1);
    }
    home[party] = slot as u8;
    member[tally.accounts] = party as u16;
    Tally {
        accounts: tally.accounts + 1,
        ..tally
    }
}
