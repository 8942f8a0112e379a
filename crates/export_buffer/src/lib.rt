// The buffer for C and Rust: a closed struct behind a reference, and every call on it. Each call lends the columns that it needs to one
// function, of crate `buffer_cores` or, where it changes the buffer, of `cores`, and copies nothing. `set_up` takes any memory and makes it well
// formed; every other call asks for a well formed buffer and leaves one. Codes are the numbers of the table of codes, and a test answers 1 or 0.
#![tactic(auto)]

ghost use Rattle.std.specs.Prelude.{◌≡◌, ◌/◌, length};
ghost use Rattle.rules.specs.World.{least_read};
ghost use Rattle.rules.specs.Queues.{queued as queued_of, full_by_count, full_by_slots, account_at, message_at};
ghost use Rattle.rules.specs.Calls.{is_open, set_up_buffer, add_message, remove_accounts, begin as begin_by, commit as commit_by, rollback as rollback_by};
ghost use Rattle.columns.specs.Rows.{rows_of};
ghost use Rattle.message.specs.Real.{Real, offer};
ghost use Rattle.message.specs.Seen.{seen_account, seen_message};
ghost use Rattle.queues.specs.Meant.{meant};
ghost use Rattle.queues.specs.Append.{add_c};
ghost use Rattle.queues.specs.Compact.{remove_c};
ghost use Rattle.queues.specs.Transact.{begin_c, commit_c, rollback_c};
ghost use Rattle.buffer_reads.specs.Shown.{counts_of};
ghost use Rattle.buffers.specs.Buffers.{set_up_c};
ghost use Rattle.export_parts.specs.Parts.{bit, message_of, Told, ToldMessage};
ghost use Rattle.buffer_cores.specs.Told.{Gives, listed};
ghost use Rattle.export_buffer.specs.Held.{cols_of, GoodBuffer};

mod cores;

// A buffer for at most 1,024 messages of at most 256 accounts. Rows 1,024 to 2,047 and accounts 256 to 511 are the backup room.
#[repr(C)]
#[derive(Clone, Copy)]
pub struct Buffer {
    owner: [u16; 2048],
    kind: [u8; 2048],
    form: [u8; 2048],
    time: [u64; 2048],
    address: [u8; 65536],
    hash: [u8; 65536],
    accounts: [u8; 16384],
    numbers: [u64; 528],
}

const _: () = prove!(size_of::<Buffer>() == 176256 && align_of::<Buffer>() == 8);

// ---- set-up

// Sets a buffer up in any memory for M messages, 1 to 1,024, and A accounts, 1 to 256. A refused one has room for one of each.
#[unsafe(no_mangle)]
pub extern "C" fn lintelsong_buffer_set_up(b: &mut Buffer, messages: u64, accounts: u64) -> u8
    ensures { Gives (set_up_buffer Real messages accounts) (set_up_c messages accounts) result (cols_of b.new) }
{
    buffer_cores::set_up(
        &mut b.owner,
        &mut b.kind,
        &mut b.form,
        &mut b.time,
        &mut b.address,
        &mut b.hash,
        &mut b.accounts,
        &mut b.numbers,
        messages,
        accounts,
    )
}

// ---- calls that change the buffer

// Adds a message to the end of its account's queue: codes 2 to 5. A `special` other than 0 is a set mark; a `form` other than 0 is not the
// standard one.
#[unsafe(no_mangle)]
pub extern "C" fn lintelsong_buffer_add(
    b: &mut Buffer,
    address: &[u8; 32],
    hash: &[u8; 32],
    time: u64,
    kind: u8,
    special: u8,
    form: u8,
) -> u8
    requires { GoodBuffer b.old }
    ensures { Gives (add_message Real (offer (message_of address.now hash.now time kind special form)) (meant (cols_of b.old))) (add_c (message_of address.now hash.now time kind special form) (cols_of b.old)) result (cols_of b.new) }
{
    cores::add(
        &mut b.owner,
        &mut b.kind,
        &mut b.form,
        &mut b.time,
        &mut b.address,
        &mut b.hash,
        &mut b.accounts,
        &mut b.numbers,
        address,
        hash,
        time,
        kind,
        special,
        form,
    )
}

// Removes the queues of the named accounts, 32 bytes a name: code 8 if one of them holds an external. Names without a queue, names given
// twice and bytes behind the last whole name do nothing.
#[unsafe(no_mangle)]
pub extern "C" fn lintelsong_buffer_remove(b: &mut Buffer, names: &[u8]) -> u8
    requires { GoodBuffer b.old }
    ensures { Gives (remove_accounts Real (rows_of (length names.now / 32) names.now) (meant (cols_of b.old))) (remove_c names.now (cols_of b.old)) result (cols_of b.new) }
{
    cores::remove(
        &mut b.owner,
        &mut b.kind,
        &mut b.form,
        &mut b.time,
        &mut b.address,
        &mut b.hash,
        &mut b.accounts,
        &mut b.numbers,
        names,
    )
}

// Opens a transaction: code 7 if one is open.
#[unsafe(no_mangle)]
pub extern "C" fn lintelsong_buffer_begin(b: &mut Buffer) -> u8
    requires { GoodBuffer b.old }
    ensures { Gives (begin_by Real (meant (cols_of b.old))) (begin_c (cols_of b.old)) result (cols_of b.new) }
{
    cores::begin(
        &mut b.owner,
        &mut b.kind,
        &mut b.form,
        &mut b.time,
        &mut b.address,
        &mut b.hash,
        &mut b.accounts,
        &mut b.numbers,
    )
}

// Ends a transaction and leaves the buffer as it is: code 6 if none is open.
#[unsafe(no_mangle)]
pub extern "C" fn lintelsong_buffer_commit(b: &mut Buffer) -> u8
    requires { GoodBuffer b.old }
    ensures { Gives (commit_by Real (meant (cols_of b.old))) (commit_c (cols_of b.old)) result (cols_of b.new) }
{
    cores::commit(&mut b.numbers)
}

// Ends a transaction and gives back every queue, the order, the counts and the minimum as at begin: code 6 if none is open.
#[unsafe(no_mangle)]
pub extern "C" fn lintelsong_buffer_rollback(b: &mut Buffer) -> u8
    requires { GoodBuffer b.old }
    ensures { Gives (rollback_by Real (meant (cols_of b.old))) (rollback_c (cols_of b.old)) result (cols_of b.new) }
{
    cores::rollback(
        &mut b.owner,
        &mut b.kind,
        &mut b.form,
        &mut b.time,
        &mut b.address,
        &mut b.hash,
        &mut b.accounts,
        &mut b.numbers,
    )
}

// ---- what a buffer holds

// Writes the room of the buffer, M and A, and what it holds: messages, accounts, internals, externals. Answers 0.
#[unsafe(no_mangle)]
pub extern "C" fn lintelsong_buffer_counts(b: &mut Buffer, out: &mut [u64; 6]) -> u8
    requires { GoodBuffer b.old }
    ensures { (result ≡ 0) × (out.new ≡ listed (counts_of (meant (cols_of b.old)))) × (b.new ≡ b.old) }
{
    buffer_cores::counts(&b.numbers, out)
}

// Whether there is a minimum chain time.
#[unsafe(no_mangle)]
pub extern "C" fn lintelsong_buffer_has_min_ext_chain_time(b: &mut Buffer) -> u8
    requires { GoodBuffer b.old }
    ensures { (result ≡ bit (is_open (meant (cols_of b.old)).now.least)) × (b.new ≡ b.old) }
{
    buffer_cores::has_min_ext_chain_time(&b.numbers)
}

// The minimum chain time; absent reads as 2^64 - 1.
#[unsafe(no_mangle)]
pub extern "C" fn lintelsong_buffer_min_ext_chain_time(b: &mut Buffer) -> u64
    requires { GoodBuffer b.old }
    ensures { (result ≡ least_read (meant (cols_of b.old)).now.least) × (b.new ≡ b.old) }
{
    buffer_cores::min_ext_chain_time(&b.numbers)
}

// Whether a transaction is open.
#[unsafe(no_mangle)]
pub extern "C" fn lintelsong_buffer_in_tx(b: &mut Buffer) -> u8
    requires { GoodBuffer b.old }
    ensures { (result ≡ bit (is_open (meant (cols_of b.old)).kept)) × (b.new ≡ b.old) }
{
    buffer_cores::in_tx(&b.numbers)
}

// How many messages the queue of an account holds; 0 if it has none.
#[unsafe(no_mangle)]
pub extern "C" fn lintelsong_buffer_account_messages_count(b: &mut Buffer, name: &[u8; 32]) -> u64
    requires { GoodBuffer b.old }
    ensures { (result ≡ queued_of Real name.now (meant (cols_of b.old)).now) × (b.new ≡ b.old) }
{
    buffer_cores::account_messages_count(&b.owner, &b.accounts, &b.numbers, name)
}

// Whether the buffer holds at least `limit` messages.
#[unsafe(no_mangle)]
pub extern "C" fn lintelsong_buffer_is_filled_by_count(b: &mut Buffer, limit: u64) -> u8
    requires { GoodBuffer b.old }
    ensures { (result ≡ bit (full_by_count Real limit (meant (cols_of b.old)).now)) × (b.new ≡ b.old) }
{
    buffer_cores::is_filled_by_count(&b.numbers, limit)
}

// Whether the buffer is filled by slots: never.
#[unsafe(no_mangle)]
pub extern "C" fn lintelsong_buffer_is_filled_by_slots(b: &mut Buffer) -> u8
    requires { GoodBuffer b.old }
    ensures { (result ≡ bit full_by_slots) × (b.new ≡ b.old) }
{
    buffer_cores::is_filled_by_slots(&b.numbers)
}

// ---- the walk in order

// Writes the account at a place of the order, and answers 1; past the end it writes zeros and answers 0.
#[unsafe(no_mangle)]
pub extern "C" fn lintelsong_buffer_account_at(b: &mut Buffer, out: &mut [u8; 32], place: u16) -> u8
    requires { GoodBuffer b.old }
    ensures { Told result out.new (seen_account (account_at Real place (meant (cols_of b.old)).now)) × (b.new ≡ b.old) }
{
    buffer_cores::account_at(&b.accounts, &b.numbers, out, place)
}

// Writes the message at a position of the queue at a place of the order, and answers 1; past either end it writes a fresh message and answers
// 0. `facts` are its kind, its mark (never set), its form and its time.
#[unsafe(no_mangle)]
pub extern "C" fn lintelsong_buffer_message_at(
    b: &mut Buffer,
    facts: &mut [u64; 4],
    address: &mut [u8; 32],
    hash: &mut [u8; 32],
    place: u16,
    position: u64,
) -> u8
    requires { GoodBuffer b.old }
    ensures { ToldMessage result facts.new address.new hash.new (seen_message (message_at Real place position (meant (cols_of b.old)).now)) × (b.new ≡ b.old) }
{
    buffer_cores::message_at(
        &b.owner, &b.kind, &b.form, &b.time, &b.address, &b.hash, &b.numbers, facts, address, hash,
        place, position,
    )
}
