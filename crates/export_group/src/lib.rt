// The group for C and Rust: a closed struct behind a reference, and every call on it. Each call lends the columns that it needs to one
// function of crate `group_cores`, and copies nothing. `set_up` takes any memory and makes it well formed; every other call asks for a well formed
// group and leaves one. Codes are the numbers of the table of codes, and a test answers 1 or 0.
#![tactic(auto)]

ghost use Rattle.std.specs.Prelude.{◌≡◌, [], get_or};
ghost use Rattle.rules.specs.World.{nth, is_nil};
ghost use Rattle.rules.specs.Queues.{has, at as list_at, accounts as accounts_of};
ghost use Rattle.rules.specs.Fill.{is_filled};
ghost use Rattle.message.specs.Real.{Real};
ghost use Rattle.message.specs.Seen.{seen_account, seen_message};
ghost use Rattle.slots.specs.Meant.{meant};
ghost use Rattle.group_reads.specs.Shown.{counts_of, seen_id, seen_slot, accounts_at, Displays};
ghost use Rattle.export_parts.specs.Parts.{bit, Told, ToldMessage};
ghost use Rattle.group_parts.specs.Told.{listed, ToldId, ToldSlot};
ghost use Rattle.group_cores.specs.Told.{SetsUp};
ghost use Rattle.export_group.specs.Held.{table_of, GoodGroup};

// A group of at most 64 slots, 1,024 accounts and 1,024 messages.
#[repr(C)]
#[derive(Clone, Copy)]
pub struct Group {
    number: [u16; 64],
    ints: [u8; 64],
    exts: [u8; 64],
    accounts: [u8; 32768],
    home: [u8; 1024],
    owner: [u16; 1024],
    kind: [u8; 1024],
    form: [u8; 1024],
    time: [u64; 1024],
    address: [u8; 32768],
    hash: [u8; 32768],
    buckets: [u32; 1088],
    numbers: [u64; 16],
}

const _: () = prove!(size_of::<Group>() == 116352 && align_of::<Group>() == 8);

// Sets a group up in any memory for S slots, 1 to 64. A refused one has room for one slot.
#[unsafe(no_mangle)]
pub extern "C" fn lintelsong_group_set_up(g: &mut Group, slots: u64) -> u8
    ensures { SetsUp slots result (table_of g.new) }
{
    group_cores::set_up(
        &mut g.number,
        &mut g.ints,
        &mut g.exts,
        &mut g.accounts,
        &mut g.home,
        &mut g.owner,
        &mut g.kind,
        &mut g.form,
        &mut g.time,
        &mut g.address,
        &mut g.hash,
        &mut g.buckets,
        &mut g.numbers,
        slots,
    )
}

// ---- what a group holds

// Writes the room of the group, S, and what it holds: slots, accounts, messages, internals, externals. Answers 0.
#[unsafe(no_mangle)]
pub extern "C" fn lintelsong_group_counts(g: &mut Group, out: &mut [u64; 6]) -> u8
    requires { GoodGroup g.old }
    ensures { (result ≡ 0) × (out.new ≡ listed (counts_of (meant (table_of g.old)))) × (g.new ≡ g.old) }
{
    group_cores::counts(&g.numbers, out)
}

// Whether it has no slot.
#[unsafe(no_mangle)]
pub extern "C" fn lintelsong_group_is_empty(g: &mut Group) -> u8
    requires { GoodGroup g.old }
    ensures { (result ≡ bit (is_nil (meant (table_of g.old)).now.slots)) × (g.new ≡ g.old) }
{
    group_cores::is_empty(&g.numbers)
}

// Whether an account has a list in the group.
#[unsafe(no_mangle)]
pub extern "C" fn lintelsong_group_contains_account(g: &mut Group, name: &[u8; 32]) -> u8
    requires { GoodGroup g.old }
    ensures { (result ≡ bit (has Real name.now (meant (table_of g.old)).now.lists)) × (g.new ≡ g.old) }
{
    group_cores::contains_account(&g.accounts, &g.numbers, name)
}

// Whether it is filled: at least as many slots as asked for, and every bucket below the height empty.
#[unsafe(no_mangle)]
pub extern "C" fn lintelsong_group_check_is_filled(g: &mut Group, asked: u64, height: u64) -> u8
    requires { GoodGroup g.old }
    ensures { (result ≡ bit (is_filled Real asked height (meant (table_of g.old)).now)) × (g.new ≡ g.old) }
{
    group_cores::check_is_filled(&g.buckets, &g.numbers, asked, height)
}

// Writes the last slot number that was given, and answers 1; 0 and 0 if none was. It is not the number of slots.
#[unsafe(no_mangle)]
pub extern "C" fn lintelsong_group_last_slot(g: &mut Group, out: &mut [u16; 1]) -> u8
    requires { GoodGroup g.old }
    ensures { ToldId result out.new (seen_id (meant (table_of g.old)).now.last) × (g.new ≡ g.old) }
{
    group_cores::last_slot(&g.numbers, out)
}

// Writes the Display line to the start of what is lent and says how long it is; what is lent stays as it is where the line does not fit.
#[unsafe(no_mangle)]
pub extern "C" fn lintelsong_group_display(g: &mut Group, out: &mut [u8]) -> u64
    requires { GoodGroup g.old }
    ensures { Displays (meant (table_of g.old)) out.old out.new result × (g.new ≡ g.old) }
{
    group_cores::display(&g.numbers, out)
}

// ---- the walks

// Writes the number of the slot at a position, by rising number, its internals and its externals, and answers 1; zeros and 0 past the end.
#[unsafe(no_mangle)]
pub extern "C" fn lintelsong_group_slot_at(g: &mut Group, out: &mut [u64; 3], position: u64) -> u8
    requires { GoodGroup g.old }
    ensures { ToldSlot result out.new (seen_slot (nth position (meant (table_of g.old)).now.slots)) × (g.new ≡ g.old) }
{
    group_cores::slot_at(&g.number, &g.ints, &g.exts, &g.numbers, out, position)
}

// Writes the account with the k-th list, and answers 1; zeros and 0 past the end.
#[unsafe(no_mangle)]
pub extern "C" fn lintelsong_group_account_at(g: &mut Group, out: &mut [u8; 32], k: u64) -> u8
    requires { GoodGroup g.old }
    ensures { Told result out.new (seen_account (nth k (accounts_of Real (meant (table_of g.old)).now.lists))) × (g.new ≡ g.old) }
{
    group_cores::account_at(&g.accounts, &g.numbers, out, k)
}

// Writes the k-th account of the slot at a position, and answers 1; zeros and 0 past either end.
#[unsafe(no_mangle)]
pub extern "C" fn lintelsong_group_slot_account_at(
    g: &mut Group,
    out: &mut [u8; 32],
    position: u64,
    k: u64,
) -> u8
    requires { GoodGroup g.old }
    ensures { Told result out.new (seen_account (nth k (accounts_at (nth position (meant (table_of g.old)).now.slots)))) × (g.new ≡ g.old) }
{
    group_cores::slot_account_at(&g.accounts, &g.home, &g.numbers, out, position, k)
}

// Writes the k-th message of an account's list, and answers 1; a fresh message and 0 past the end or without a list.
#[unsafe(no_mangle)]
pub extern "C" fn lintelsong_group_message_at(
    g: &mut Group,
    name: &[u8; 32],
    facts: &mut [u64; 4],
    address: &mut [u8; 32],
    hash: &mut [u8; 32],
    k: u64,
) -> u8
    requires { GoodGroup g.old }
    ensures { ToldMessage result facts.new address.new hash.new (seen_message (nth k (list_at Real name.now (meant (table_of g.old)).now.lists))) × (g.new ≡ g.old) }
{
    group_cores::message_at(
        &g.accounts,
        &g.owner,
        &g.kind,
        &g.form,
        &g.time,
        &g.address,
        &g.hash,
        &g.numbers,
        name,
        facts,
        address,
        hash,
        k,
    )
}

// Writes the k-th slot number that the bucket of a count lists, and answers 1; 0 and 0 past either end.
#[unsafe(no_mangle)]
pub extern "C" fn lintelsong_group_bucket_at(
    g: &mut Group,
    out: &mut [u16; 1],
    count: u64,
    k: u64,
) -> u8
    requires { GoodGroup g.old }
    ensures { ToldId result out.new (seen_id (nth k (get_or (meant (table_of g.old)).now.index count []))) × (g.new ≡ g.old) }
{
    group_cores::bucket_at(&g.buckets, out, count, k)
}
