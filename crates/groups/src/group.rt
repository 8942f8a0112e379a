// The group: slots by rising number, each with its accounts, and the accounts' lists of messages in order of collection. What is read off it
// is read by crate `group_reads`, which is lent the columns that it needs.
ghost use Rattle.std.specs.Prelude.{◌≡◌};
ghost use Rattle.rules.specs.World.{is_nil};
ghost use Rattle.rules.specs.Fill.{is_filled};
ghost use Rattle.message.specs.Real.{Real};
ghost use Rattle.slots.specs.Meant.{meant};
ghost use Rattle.slots.specs.Join.{fresh_t};
ghost use Rattle.group_reads.specs.Shown.{counts_of, seen_id, Displays};
ghost use Rattle.groups.specs.Groups.{table_of, GoodGroup, SetsUp};

use group_reads::{Counts, held};
use message::Code;
use numbers::SlotId;

// A group of at most 64 slots, 1,024 accounts and 1,024 messages.
#[derive(Clone, Copy)]
pub struct Group {
    pub number: [u16; 64],
    pub ints: [u8; 64],
    pub exts: [u8; 64],
    pub accounts: [u8; 32768],
    pub home: [u8; 1024],
    pub owner: [u16; 1024],
    pub kind: [u8; 1024],
    pub form: [u8; 1024],
    pub time: [u64; 1024],
    pub address: [u8; 32768],
    pub hash: [u8; 32768],
    pub buckets: [u32; 1088],
    pub numbers: [u64; 16],
}

// What a set-up answers.
// stays: what may not change: a refused set-up gives a group of size 1 (`SetsUp`), so the group stands beside the code.
#[derive(Clone, Copy)]
pub struct Answer {
    pub code: Code,
    pub group: Group,
}

// A group that holds nothing, with room for s slots.
pub fn fresh(s: u64) -> Group
    ensures { table_of result ≡ fresh_t s }
{
    let mut numbers = [0u64; 16];
    numbers[0] = s;
    Group {
        number: [0u16; 64],
        ints: [0u8; 64],
        exts: [0u8; 64],
        accounts: [0u8; 32768],
        home: [0u8; 1024],
        owner: [0u16; 1024],
        kind: [0u8; 1024],
        form: [0u8; 1024],
        time: [0u64; 1024],
        address: [0u8; 32768],
        hash: [0u8; 32768],
        buckets: [buckets::NONE; 1088],
        numbers,
    }
}

impl Group {
    // ---- set-up

    // Sets a group up for S slots, 1 to 64. A refused one has room for one slot.
    pub fn set_up(s: u64) -> Answer
        ensures { SetsUp s result.code result.group }
    {
        let size = sizes::slots_for(s);
        Answer {
            code: size.code,
            group: fresh(size.slots),
        }
    }

    // ---- what a group holds

    // The room of the group and what it holds.
    pub fn counts(self) -> Counts
        requires { GoodGroup self }
        ensures { result ≡ counts_of (meant (table_of self)) }
    {
        held::counts(&self.numbers)
    }

    // Whether it has no slot.
    pub fn is_empty(self) -> bool
        requires { GoodGroup self }
        ensures { result ≡ is_nil (meant (table_of self)).now.slots }
    {
        held::is_empty(&self.numbers)
    }

    // Whether it is filled: at least as many slots as asked for, and every bucket below the height empty.
    pub fn check_is_filled(self, asked: u64, height: usize) -> bool
        requires { GoodGroup self }
        ensures { result ≡ is_filled Real asked height (meant (table_of self)).now }
    {
        // Taken out by name: a field lent in place would have the whole group copied first.
        let Group {
            buckets,
            numbers,
            ..
        } = self;
        group_shown::check_is_filled(&buckets, &numbers, asked, height)
    }

    // The last slot number that was given; it is not the number of slots.
    pub fn last_slot(self) -> Option<SlotId>
        requires { GoodGroup self }
        ensures { result ≡ seen_id (meant (table_of self)).now.last }
    {
        held::last_slot(&self.numbers)
    }

    // Writes the Display line to the start of what is lent and says how long it is; what is lent stays as it is where the line does not fit.
    pub fn display(self, out: &mut [u8]) -> usize
        requires { GoodGroup self }
        ensures { Displays (meant (table_of self)) out.old out.new result }
    {
        group_shown::display(&self.numbers, out)
    }
}
