// What the exports of a buffer do, on lent columns, but for the calls that change it: set-up, and each read of crates `buffer_reads` and
// `buffer_seen` with its answer written out in numbers. A test answers 1 or 0.
#![tactic(auto)]

ghost use Rattle.std.specs.Prelude.{◌≡◌, ◌≤◌, length, get_or};
ghost use Rattle.rules.specs.Calls.{set_up_buffer};
ghost use Rattle.message.specs.Real.{Real};
ghost use Rattle.queues.specs.Cols.{cols};
ghost use Rattle.buffers.specs.Buffers.{fresh_c, set_up_c};
ghost use Rattle.buffer_reads.specs.Lent.{counts_in, marked, lowest_in, filled_in};
ghost use Rattle.buffer_seen.specs.Lent.{queued_in, account_found, message_found};
ghost use Rattle.export_parts.specs.Parts.{bit, Told, ToldMessage};
ghost use Rattle.buffer_cores.specs.Told.{Gives, listed};

use buffer_reads::held;

// ---- set-up

// Makes the columns those of a buffer that holds nothing, whatever they held.
fn fresh(
    owner: &mut [u16; 2048],
    kind: &mut [u8; 2048],
    form: &mut [u8; 2048],
    time: &mut [u64; 2048],
    address: &mut [u8; 65536],
    hash: &mut [u8; 65536],
    accounts: &mut [u8; 16384],
    numbers: &mut [u64; 528],
    m: u64,
    a: u64,
)
    ensures { cols owner.new kind.new form.new time.new address.new hash.new accounts.new numbers.new ≡ fresh_c m a }
{
    *owner = [0u16; 2048];
    *kind = [0u8; 2048];
    *form = [0u8; 2048];
    *time = [0u64; 2048];
    *address = [0u8; 65536];
    *hash = [0u8; 65536];
    *accounts = [0u8; 16384];
    let mut sizes = [0u64; 528];
    sizes[0] = m;
    sizes[1] = a;
    *numbers = sizes;
}

pub fn set_up(
    owner: &mut [u16; 2048],
    kind: &mut [u8; 2048],
    form: &mut [u8; 2048],
    time: &mut [u64; 2048],
    address: &mut [u8; 65536],
    hash: &mut [u8; 65536],
    accounts: &mut [u8; 16384],
    numbers: &mut [u64; 528],
    m: u64,
    a: u64,
) -> u8
    ensures { Gives (set_up_buffer Real m a) (set_up_c m a) result (cols owner.new kind.new form.new time.new address.new hash.new accounts.new numbers.new) }
{
    let size = sizes::size_for(m, a);
    fresh(
        owner,
        kind,
        form,
        time,
        address,
        hash,
        accounts,
        numbers,
        size.messages,
        size.accounts,
    );
    let code = size.code;
    message::number_of(code)
}

// ---- what a buffer holds

pub fn counts(numbers: &[u64; 528], out: &mut [u64; 6]) -> u8
    ensures { (result ≡ 0) × (out.new ≡ listed (counts_in numbers.now)) }
{
    let c = held::counts(numbers);
    *out = [c.capacity, c.places, c.messages, c.accounts, c.ints, c.exts];
    0
}

pub fn has_min_ext_chain_time(numbers: &[u64; 528]) -> u8
    ensures { result ≡ bit (marked numbers.now 7) }
{
    export_parts::bit_of(held::has_min_ext_chain_time(numbers))
}

pub fn min_ext_chain_time(numbers: &[u64; 528]) -> u64
    ensures { result ≡ lowest_in numbers.now }
{
    held::min_ext_chain_time(numbers)
}

pub fn in_tx(numbers: &[u64; 528]) -> u8
    ensures { result ≡ bit (marked numbers.now 8) }
{
    export_parts::bit_of(held::in_tx(numbers))
}

pub fn is_filled_by_count(numbers: &[u64; 528], limit: u64) -> u8
    ensures { result ≡ bit (filled_in numbers.now limit).count }
{
    let filled = held::check_is_filled(numbers, limit);
    export_parts::bit_of(filled.count)
}

pub fn is_filled_by_slots(numbers: &[u64; 528]) -> u8
    ensures { result ≡ bit (filled_in numbers.now 0).slots }
{
    let filled = held::check_is_filled(numbers, 0);
    export_parts::bit_of(filled.slots)
}

pub fn account_messages_count(
    owner: &[u16; 2048],
    accounts: &[u8; 16384],
    numbers: &[u64; 528],
    name: &[u8; 32],
) -> u64
    requires { (get_or numbers.now 3 0 ≤ 256) × (get_or numbers.now 2 0 ≤ length owner.now) }
    ensures { result ≡ queued_in owner.now accounts.now numbers.now name.now }
{
    buffer_seen::account_messages_count(owner, accounts, numbers, *name) as u64
}

// ---- the walk in order

pub fn account_at(
    accounts: &[u8; 16384],
    numbers: &[u64; 528],
    out: &mut [u8; 32],
    place: u16,
) -> u8
    requires { get_or numbers.now 3 0 ≤ 256 }
    ensures { Told result out.new (account_found accounts.now numbers.now place) }
{
    let account = buffer_seen::account_at(accounts, numbers, place);
    export_parts::tell_account(account, out)
}

pub fn message_at(
    owner: &[u16; 2048],
    kind: &[u8; 2048],
    form: &[u8; 2048],
    time: &[u64; 2048],
    address: &[u8; 65536],
    hash: &[u8; 65536],
    numbers: &[u64; 528],
    facts: &mut [u64; 4],
    to: &mut [u8; 32],
    hashed: &mut [u8; 32],
    place: u16,
    position: u64,
) -> u8
    requires { get_or numbers.now 2 0 ≤ 1024 }
    ensures { ToldMessage result facts.new to.new hashed.new (message_found owner.now kind.now form.now time.now address.now hash.now numbers.now place position) }
{
    let m = buffer_seen::message_at(
        owner,
        kind,
        form,
        time,
        address,
        hash,
        numbers,
        place,
        position as usize,
    );
    export_parts::tell_message(m, facts, to, hashed)
}
