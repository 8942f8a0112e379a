// The walks of a group: slots by rising number, the accounts of a slot, lists, messages, buckets; and whether an account is there. Each is a
// read of crates `slots_seen`, `accounts_seen` and `messages_seen` on the columns that it needs, which are taken out of the group by name: a
// field lent in place would have the whole group copied first.
#![tactic(auto)]

ghost use Rattle.std.specs.Prelude.{◌≡◌, [], get_or};
ghost use Rattle.rules.specs.World.{nth};
ghost use Rattle.rules.specs.Queues.{has, at as list_at, accounts as accounts_of};
ghost use Rattle.message.specs.Real.{Real};
ghost use Rattle.message.specs.Seen.{seen_account, seen_message};
ghost use Rattle.slots.specs.Meant.{meant};
ghost use Rattle.group_reads.specs.Shown.{seen_id, seen_slot, accounts_at};
ghost use Rattle.groups.specs.Groups.{table_of, GoodGroup};

use group_reads::SeenSlot;
use groups::group::Group;
use message::Message;
use numbers::SlotId;

// Whether an account has a list in the group.
pub fn contains_account(group: Group, name: [u8; 32]) -> bool
    requires { GoodGroup group }
    ensures { result ≡ has Real name (meant (table_of group)).now.lists }
{
    let Group {
        accounts,
        numbers,
        ..
    } = group;
    accounts_seen::contains_account(&accounts, &numbers, name)
}

// The slot at a position, by rising number; none past the end.
pub fn slot_at(group: Group, position: usize) -> Option<SeenSlot>
    requires { GoodGroup group }
    ensures { result ≡ seen_slot (nth position (meant (table_of group)).now.slots) }
{
    let Group {
        number,
        ints,
        exts,
        numbers,
        ..
    } = group;
    slots_seen::slot_at(&number, &ints, &exts, &numbers, position)
}

// The k-th account of the slot at a position; none past either end.
pub fn slot_account_at(group: Group, position: usize, k: usize) -> Option<[u8; 32]>
    requires { GoodGroup group }
    ensures { result ≡ seen_account (nth k (accounts_at (nth position (meant (table_of group)).now.slots))) }
{
    let Group {
        accounts,
        home,
        numbers,
        ..
    } = group;
    accounts_seen::slot_account_at(&accounts, &home, &numbers, position, k)
}

// The account with the k-th list; none past the end.
pub fn account_at(group: Group, k: usize) -> Option<[u8; 32]>
    requires { GoodGroup group }
    ensures { result ≡ seen_account (nth k (accounts_of Real (meant (table_of group)).now.lists)) }
{
    let Group {
        accounts,
        numbers,
        ..
    } = group;
    accounts_seen::account_at(&accounts, &numbers, k)
}

// The k-th message of an account's list; none past the end or without a list.
pub fn message_at(group: Group, name: [u8; 32], k: usize) -> Option<Message>
    requires { GoodGroup group }
    ensures { result ≡ seen_message (nth k (list_at Real name (meant (table_of group)).now.lists)) }
{
    let Group {
        accounts,
        owner,
        kind,
        form,
        time,
        address,
        hash,
        numbers,
        ..
    } = group;
    messages_seen::message_at(
        &accounts, &owner, &kind, &form, &time, &address, &hash, &numbers, name, k,
    )
}

// The k-th slot number that the bucket of a count lists; none past either end.
pub fn bucket_at(group: Group, count: usize, k: usize) -> Option<SlotId>
    requires { GoodGroup group }
    ensures { result ≡ seen_id (nth k (get_or (meant (table_of group)).now.index count [])) }
{
    let Group { buckets, .. } = group;
    slots_seen::bucket_at(&buckets, count, k)
}
