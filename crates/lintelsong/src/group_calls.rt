// The calls on a group. Each hands what the group holds to the call of that name in crate `groups`, and encloses what comes back.
ghost use Rattle.std.specs.Prelude.{◌≡◌, [], get_or};
ghost use Rattle.rules.specs.World.{nth, is_nil};
ghost use Rattle.rules.specs.Queues.{has, at as list_at, accounts as accounts_of};
ghost use Rattle.rules.specs.Fill.{is_filled};
ghost use Rattle.message.specs.Real.{Real};
ghost use Rattle.message.specs.Seen.{seen_account, seen_message};
ghost use Rattle.slots.specs.Meant.{meant};
ghost use Rattle.group_reads.specs.Shown.{counts_of, seen_id, seen_slot, accounts_at, Displays};
ghost use Rattle.lintelsong.specs.Closed.{table_of, GoodGroup, SetsUp, Joins};

use crate::Group;
use group_reads::{Counts, SeenSlot};
use message::{Code, Message};
use numbers::SlotId;

// What a set-up answers.
#[derive(Clone, Copy)]
pub struct Answer {
    pub code: Code,
    pub group: Group,
}

// What a join answers: its code, and both groups afterwards.
#[derive(Clone, Copy)]
pub struct Joined {
    pub code: Code,
    pub left: Group,
    pub right: Group,
}

impl Group {
    // ---- set-up

    // Sets a group up for S slots, 1 to 64. A refused one has room for one slot.
    pub fn set_up(s: u64) -> Answer
        ensures { SetsUp s result.code result.group }
    {
        let made = groups::group::Group::set_up(s);
        let code = made.code;
        let held = made.group;
        Answer {
            code,
            group: Group { held },
        }
    }

    // ---- what a group holds

    // The room of the group and what it holds.
    pub fn counts(self) -> Counts
        requires { GoodGroup self }
        ensures { result ≡ counts_of (meant (table_of self)) }
    {
        self.held.counts()
    }

    // Whether it has no slot.
    pub fn is_empty(self) -> bool
        requires { GoodGroup self }
        ensures { result ≡ is_nil (meant (table_of self)).now.slots }
    {
        self.held.is_empty()
    }

    // Whether an account has a list in the group.
    pub fn contains_account(self, name: [u8; 32]) -> bool
        requires { GoodGroup self }
        ensures { result ≡ has Real name (meant (table_of self)).now.lists }
    {
        group_walks::contains_account(self.held, name)
    }

    // Whether it is filled: at least as many slots as asked for, and every bucket below the height empty.
    pub fn check_is_filled(self, asked: u64, height: usize) -> bool
        requires { GoodGroup self }
        ensures { result ≡ is_filled Real asked height (meant (table_of self)).now }
    {
        self.held.check_is_filled(asked, height)
    }

    // The last slot number that was given; it is not the number of slots.
    pub fn last_slot(self) -> Option<SlotId>
        requires { GoodGroup self }
        ensures { result ≡ seen_id (meant (table_of self)).now.last }
    {
        self.held.last_slot()
    }

    // ---- the walks

    // The slot at a position, by rising number; none past the end.
    pub fn slot_at(self, position: usize) -> Option<SeenSlot>
        requires { GoodGroup self }
        ensures { result ≡ seen_slot (nth position (meant (table_of self)).now.slots) }
    {
        group_walks::slot_at(self.held, position)
    }

    // The k-th account of the slot at a position; none past either end.
    pub fn slot_account_at(self, position: usize, k: usize) -> Option<[u8; 32]>
        requires { GoodGroup self }
        ensures { result ≡ seen_account (nth k (accounts_at (nth position (meant (table_of self)).now.slots))) }
    {
        group_walks::slot_account_at(self.held, position, k)
    }

    // The account with the k-th list; none past the end.
    pub fn account_at(self, k: usize) -> Option<[u8; 32]>
        requires { GoodGroup self }
        ensures { result ≡ seen_account (nth k (accounts_of Real (meant (table_of self)).now.lists)) }
    {
        group_walks::account_at(self.held, k)
    }

    // The k-th message of an account's list; none past the end or without a list.
    pub fn message_at(self, name: [u8; 32], k: usize) -> Option<Message>
        requires { GoodGroup self }
        ensures { result ≡ seen_message (nth k (list_at Real name (meant (table_of self)).now.lists)) }
    {
        group_walks::message_at(self.held, name, k)
    }

    // The k-th slot number that the bucket of a count lists; none past either end.
    pub fn bucket_at(self, count: usize, k: usize) -> Option<SlotId>
        requires { GoodGroup self }
        ensures { result ≡ seen_id (nth k (get_or (meant (table_of self)).now.index count [])) }
    {
        group_walks::bucket_at(self.held, count, k)
    }

    // Writes the Display line to the start of what is lent and says how long it is; what is lent stays as it is where the line does not fit.
    pub fn display(self, out: &mut [u8]) -> usize
        requires { GoodGroup self }
        ensures { Displays (meant (table_of self)) out.old out.new result }
    {
        self.held.display(out)
    }

    // ---- join

    // Joins the right group to this one: codes 14, 15, 12, in this order.
    pub fn join(self, right: Group) -> Joined
        requires { GoodGroup self × GoodGroup right }
        ensures { Joins self right result.code result.left result.right }
    {
        let joined = joining::join(self.held, right.held);
        let code = joined.code;
        let l = joined.left;
        let r = joined.right;
        Joined {
            code,
            left: Group { held: l },
            right: Group { held: r },
        }
    }
}
