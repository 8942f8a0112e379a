// The slots of a join: the right's behind the left's, numbered from the first new number on, and each listed in the bucket of its count.
#![tactic(auto)]

ghost use Rattle.std.specs.Prelude.{length};
ghost use Rattle.slots.specs.Join.{SlotsJoined};
ghost use Rattle.slot_joins.specs.Slots.{SlotRoom, MayAddSlots, SlotsAdded};

// The right's n slots behind the left's, numbered from `first` on.
fn join_slots(
    held: usize,
    n: usize,
    first: usize,
    number: &mut [u16; 64],
    ints: &mut [u8; 64],
    exts: &mut [u8; 64],
    ints2: &[u8; 64],
    exts2: &[u8; 64],
)
    requires { SlotRoom held n first (length number.old) (length ints.old) (length exts.old) (length ints2.now) (length exts2.now) }
    ensures { SlotsJoined held n first ints2.now exts2.now number.old ints.old exts.old number.new ints.new exts.new }
{
    laying::count_up(number, held, n, first);
    laying::lay(ints, held, ints2, n);
    laying::lay(exts, held, exts2, n);
}

// The right's n slots behind the left's, numbered from `first` on, each listed in the bucket of its count.
pub fn add_slots(
    held: usize,
    n: usize,
    first: usize,
    number: &mut [u16; 64],
    ints: &mut [u8; 64],
    exts: &mut [u8; 64],
    buckets: &mut [u32; 1088],
    ints2: &[u8; 64],
    exts2: &[u8; 64],
)
    requires { MayAddSlots held n first (length number.old) (length ints.old) (length exts.old) buckets.old ints2.now exts2.now }
    ensures { SlotsAdded held n first ints2.now exts2.now number.old ints.old exts.old buckets.old number.new ints.new exts.new buckets.new }
{
    join_slots(held, n, first, number, ints, exts, ints2, exts2);
    let counts = joins::join::counts_of(n, ints2, exts2);
    let ids = *number;
    let end = held + n;
    let cells = *buckets;
    let made = indexing::list_new(cells, &ids[held..end], &counts, n);
    *buckets = made;
}
