// What each export of a group does, on lent columns: set-up, and each read of crates `group_reads`, `group_shown`, `slots_seen`,
// `accounts_seen` and `messages_seen` with its answer written out in numbers (crate `group_parts`).
#![tactic(auto)]

ghost use Rattle.std.specs.Prelude.{◌≡◌, not, [], ◌∷◌, ◌≤◌, eqb, length, get_or};
ghost use Rattle.display.specs.Line.{written};
ghost use Rattle.queues.specs.Look.{row_of};
ghost use Rattle.slots.specs.Table.{table};
ghost use Rattle.slots.specs.Join.{fresh_t};
ghost use Rattle.buckets.specs.Cells.{GoodBuckets};
ghost use Rattle.export_parts.specs.Parts.{bit, Told, ToldMessage};
ghost use Rattle.group_reads.specs.Shown.{line_for};
ghost use Rattle.group_reads.specs.Lent.{counts_in, empty_in, filled_in};
ghost use Rattle.slots_seen.specs.Slots.{slot_found, entry_in, id_found};
ghost use Rattle.accounts_seen.specs.Accounts.{holds, account_found};
ghost use Rattle.messages_seen.specs.Messages.{row_for, message_found};
ghost use Rattle.group_parts.specs.Told.{listed, ToldId, ToldSlot};
ghost use Rattle.group_cores.specs.Told.{SetsUp};

use group_reads::held;

// ---- set-up

// Makes the columns those of a group that holds nothing, whatever they held.
pub fn fresh(
    number: &mut [u16; 64],
    ints: &mut [u8; 64],
    exts: &mut [u8; 64],
    accounts: &mut [u8; 32768],
    home: &mut [u8; 1024],
    owner: &mut [u16; 1024],
    kind: &mut [u8; 1024],
    form: &mut [u8; 1024],
    time: &mut [u64; 1024],
    address: &mut [u8; 32768],
    hash: &mut [u8; 32768],
    buckets: &mut [u32; 1088],
    numbers: &mut [u64; 16],
    s: u64,
)
    ensures { table number.new ints.new exts.new accounts.new home.new owner.new kind.new form.new time.new address.new hash.new buckets.new numbers.new ≡ fresh_t s }
{
    *number = [0u16; 64];
    *ints = [0u8; 64];
    *exts = [0u8; 64];
    *accounts = [0u8; 32768];
    *home = [0u8; 1024];
    *owner = [0u16; 1024];
    *kind = [0u8; 1024];
    *form = [0u8; 1024];
    *time = [0u64; 1024];
    *address = [0u8; 32768];
    *hash = [0u8; 32768];
    let mut sizes = [0u64; 16];
    sizes[0] = s;
    *numbers = sizes;
    clearing::clear_buckets(buckets);
}

pub fn set_up(
    number: &mut [u16; 64],
    ints: &mut [u8; 64],
    exts: &mut [u8; 64],
    accounts: &mut [u8; 32768],
    home: &mut [u8; 1024],
    owner: &mut [u16; 1024],
    kind: &mut [u8; 1024],
    form: &mut [u8; 1024],
    time: &mut [u64; 1024],
    address: &mut [u8; 32768],
    hash: &mut [u8; 32768],
    buckets: &mut [u32; 1088],
    numbers: &mut [u64; 16],
    s: u64,
) -> u8
    ensures { SetsUp s result (table number.new ints.new exts.new accounts.new home.new owner.new kind.new form.new time.new address.new hash.new buckets.new numbers.new) }
{
    let size = sizes::slots_for(s);
    fresh(
        number, ints, exts, accounts, home, owner, kind, form, time, address, hash, buckets,
        numbers, size.slots,
    );
    let code = size.code;
    message::number_of(code)
}

// ---- what a group holds

pub fn counts(numbers: &[u64; 16], out: &mut [u64; 6]) -> u8
    ensures { (result ≡ 0) × (out.new ≡ listed (counts_in numbers.now)) }
{
    let c = held::counts(numbers);
    group_parts::tell_counts(c, out);
    0
}

pub fn is_empty(numbers: &[u64; 16]) -> u8
    ensures { result ≡ bit (empty_in numbers.now) }
{
    export_parts::bit_of(held::is_empty(numbers))
}

pub fn contains_account(accounts: &[u8; 32768], numbers: &[u64; 16], name: &[u8; 32]) -> u8
    requires { get_or numbers.now 2 0 ≤ 1024 }
    ensures { result ≡ bit (holds accounts.now numbers.now name.now) }
{
    export_parts::bit_of(accounts_seen::contains_account(accounts, numbers, *name))
}

pub fn check_is_filled(buckets: &[u32; 1088], numbers: &[u64; 16], asked: u64, height: u64) -> u8
    ensures { result ≡ bit (filled_in buckets.now numbers.now asked height) }
{
    export_parts::bit_of(group_shown::check_is_filled(buckets, numbers, asked, height as usize))
}

// Writes the number beside the mark of a last slot, and answers whether the mark is set.
pub fn last_slot(numbers: &[u64; 16], out: &mut [u16; 1]) -> u8
    requires { get_or numbers.now 6 0 ≤ 65535 }
    ensures { (result ≡ bit (not (eqb (get_or numbers.now 7 0) 0))) × (out.new ≡ get_or numbers.now 6 0 ∷ []) }
{
    *out = [held::last_number(numbers).0];
    export_parts::bit_of(held::last_slot(numbers).is_some())
}

pub fn display(numbers: &[u64; 16], out: &mut [u8]) -> u64
    ensures { (result ≡ length (line_for (counts_in numbers.now))) × (out.new ≡ written (line_for (counts_in numbers.now)) out.old) }
{
    group_shown::display(numbers, out) as u64
}

// ---- the walks

pub fn slot_at(
    number: &[u16; 64],
    ints: &[u8; 64],
    exts: &[u8; 64],
    numbers: &[u64; 16],
    out: &mut [u64; 3],
    position: u64,
) -> u8
    requires { get_or numbers.now 1 0 ≤ 64 }
    ensures { ToldSlot result out.new (slot_found number.now ints.now exts.now numbers.now position) }
{
    let slot = slots_seen::slot_at(number, ints, exts, numbers, position as usize);
    group_parts::tell_slot(slot, out)
}

pub fn account_at(accounts: &[u8; 32768], numbers: &[u64; 16], out: &mut [u8; 32], k: u64) -> u8
    requires { get_or numbers.now 2 0 ≤ 1024 }
    ensures { Told result out.new (account_found accounts.now numbers.now k) }
{
    let account = accounts_seen::account_at(accounts, numbers, k as usize);
    export_parts::tell_account(account, out)
}

pub fn slot_account_at(
    accounts: &[u8; 32768],
    home: &[u8; 1024],
    numbers: &[u64; 16],
    out: &mut [u8; 32],
    position: u64,
    k: u64,
) -> u8
    requires { get_or numbers.now 2 0 ≤ 1024 }
    ensures { Told result out.new (account_found accounts.now numbers.now (row_of home.now (get_or numbers.now 2 0) position k)) }
{
    let account = accounts_seen::slot_account_at(
        accounts,
        home,
        numbers,
        position as usize,
        k as usize,
    );
    export_parts::tell_account(account, out)
}

pub fn message_at(
    accounts: &[u8; 32768],
    owner: &[u16; 1024],
    kind: &[u8; 1024],
    form: &[u8; 1024],
    time: &[u64; 1024],
    address: &[u8; 32768],
    hash: &[u8; 32768],
    numbers: &[u64; 16],
    name: &[u8; 32],
    facts: &mut [u64; 4],
    to: &mut [u8; 32],
    hashed: &mut [u8; 32],
    k: u64,
) -> u8
    requires { (get_or numbers.now 2 0 ≤ 1024) × (get_or numbers.now 3 0 ≤ 1024) }
    ensures { ToldMessage result facts.new to.new hashed.new (message_found kind.now form.now time.now address.now hash.now numbers.now (row_for accounts.now owner.now numbers.now name.now k)) }
{
    let m = messages_seen::message_at(
        accounts, owner, kind, form, time, address, hash, numbers, *name, k as usize,
    );
    export_parts::tell_message(m, facts, to, hashed)
}

pub fn bucket_at(buckets: &[u32; 1088], out: &mut [u16; 1], count: u64, k: u64) -> u8
    requires { GoodBuckets buckets.now }
    ensures { ToldId result out.new (id_found (entry_in buckets.now count k)) }
{
    let id = slots_seen::bucket_at(buckets, count as usize, k as usize);
    group_parts::tell_id(id, out)
}
