// The join on lent columns: refused, or the right's rows behind the left's and the right cleared. The left's columns come first, then the
// right's (with a 2). Nothing is copied that stays, and of the right only the cells in use are cleared.
#![tactic(auto)]

ghost use Rattle.std.specs.Prelude.{◌≡◌, get_or};
ghost use Rattle.slots.specs.Table.{table};
ghost use Rattle.slots.specs.Good.{Good};
ghost use Rattle.slots.specs.Join.{fresh_t};
ghost use Rattle.merging.specs.Merges.{rows, Merges, MayAdd, Added};

use message::Code;

// The right's rows behind the left's, and the counts of both together.
fn add(
    number: &mut [u16; 64],
    ints: &mut [u8; 64],
    exts: &mut [u8; 64],
    accounts: &mut [u8; 32768],
    home: &mut [u8; 1024],
    owner: &mut [u16; 1024],
    kind: &mut [u8; 1024],
    form: &mut [u8; 1024],
    time: &mut [u64; 1024],
    address: &mut [u8; 32768],
    hash: &mut [u8; 32768],
    buckets: &mut [u32; 1088],
    numbers: &mut [u64; 16],
    ints2: &[u8; 64],
    exts2: &[u8; 64],
    accounts2: &[u8; 32768],
    home2: &[u8; 1024],
    owner2: &[u16; 1024],
    kind2: &[u8; 1024],
    form2: &[u8; 1024],
    time2: &[u64; 1024],
    address2: &[u8; 32768],
    hash2: &[u8; 32768],
    numbers2: &[u64; 16],
)
    requires { MayAdd (table number.old ints.old exts.old accounts.old home.old owner.old kind.old form.old time.old address.old hash.old buckets.old numbers.old) (rows ints2.now exts2.now accounts2.now home2.now owner2.now kind2.now form2.now time2.now address2.now hash2.now numbers2.now) }
    ensures { Added (table number.old ints.old exts.old accounts.old home.old owner.old kind.old form.old time.old address.old hash.old buckets.old numbers.old) (rows ints2.now exts2.now accounts2.now home2.now owner2.now kind2.now form2.now time2.now address2.now hash2.now numbers2.now) (table number.new ints.new exts.new accounts.new home.new owner.new kind.new form.new time.new address.new hash.new buckets.new numbers.new) }
{
    let first = slots::next_number(numbers);
    let held = numbers[1] as usize;
    let members = numbers[2] as usize;
    let at = numbers[3] as usize;
    let n = numbers2[3] as usize;
    slot_joins::add_slots(
        held,
        numbers2[1] as usize,
        first,
        number,
        ints,
        exts,
        buckets,
        ints2,
        exts2,
    );
    row_joins::join_accounts(
        members,
        numbers2[2] as usize,
        held as u8,
        accounts,
        home,
        accounts2,
        home2,
    );
    row_joins::join_messages(
        at,
        n,
        members as u16,
        owner,
        kind,
        form,
        time,
        owner2,
        kind2,
        form2,
        time2,
    );
    row_joins::join_records(at, n, address, hash, address2, hash2);
    number_joins::join_numbers(first, numbers, numbers2);
}

// ---- the right left fresh

// Leaves a group fresh, with its own room.
fn clear(
    number: &mut [u16; 64],
    ints: &mut [u8; 64],
    exts: &mut [u8; 64],
    accounts: &mut [u8; 32768],
    home: &mut [u8; 1024],
    owner: &mut [u16; 1024],
    kind: &mut [u8; 1024],
    form: &mut [u8; 1024],
    time: &mut [u64; 1024],
    address: &mut [u8; 32768],
    hash: &mut [u8; 32768],
    buckets: &mut [u32; 1088],
    numbers: &mut [u64; 16],
)
    requires { Good (table number.old ints.old exts.old accounts.old home.old owner.old kind.old form.old time.old address.old hash.old buckets.old numbers.old) }
    ensures { table number.new ints.new exts.new accounts.new home.new owner.new kind.new form.new time.new address.new hash.new buckets.new numbers.new ≡ fresh_t (get_or numbers.old 0 0) }
{
    let slots = numbers[1] as usize;
    let members = numbers[2] as usize;
    let n = numbers[3] as usize;
    clearing::clear_slots(slots, number, ints, exts);
    clearing::clear_accounts(members, accounts, home);
    clearing::clear_messages(n, owner, kind, form, time);
    clearing::clear_records(n, address, hash);
    clearing::clear_buckets(buckets);
    clearing::clear_numbers(numbers);
}

// ---- the whole join

// Joins the right group to the left one: codes 14, 15, 12, in this order, decided before anything is written.
pub fn join(
    number: &mut [u16; 64],
    ints: &mut [u8; 64],
    exts: &mut [u8; 64],
    accounts: &mut [u8; 32768],
    home: &mut [u8; 1024],
    owner: &mut [u16; 1024],
    kind: &mut [u8; 1024],
    form: &mut [u8; 1024],
    time: &mut [u64; 1024],
    address: &mut [u8; 32768],
    hash: &mut [u8; 32768],
    buckets: &mut [u32; 1088],
    numbers: &mut [u64; 16],
    number2: &mut [u16; 64],
    ints2: &mut [u8; 64],
    exts2: &mut [u8; 64],
    accounts2: &mut [u8; 32768],
    home2: &mut [u8; 1024],
    owner2: &mut [u16; 1024],
    kind2: &mut [u8; 1024],
    form2: &mut [u8; 1024],
    time2: &mut [u64; 1024],
    address2: &mut [u8; 32768],
    hash2: &mut [u8; 32768],
    buckets2: &mut [u32; 1088],
    numbers2: &mut [u64; 16],
) -> Code
    requires { Good (table number.old ints.old exts.old accounts.old home.old owner.old kind.old form.old time.old address.old hash.old buckets.old numbers.old) × Good (table number2.old ints2.old exts2.old accounts2.old home2.old owner2.old kind2.old form2.old time2.old address2.old hash2.old buckets2.old numbers2.old) }
    ensures { Merges (table number.old ints.old exts.old accounts.old home.old owner.old kind.old form.old time.old address.old hash.old buckets.old numbers.old) (table number2.old ints2.old exts2.old accounts2.old home2.old owner2.old kind2.old form2.old time2.old address2.old hash2.old buckets2.old numbers2.old) result (table number.new ints.new exts.new accounts.new home.new owner.new kind.new form.new time.new address.new hash.new buckets.new numbers.new) (table number2.new ints2.new exts2.new accounts2.new home2.new owner2.new kind2.new form2.new time2.new address2.new hash2.new buckets2.new numbers2.new) }
{
    joins::join::decide(numbers, accounts, numbers2, accounts2)?;
    add(
        number, ints, exts, accounts, home, owner, kind, form, time, address, hash, buckets,
        numbers, ints2, exts2, accounts2, home2, owner2, kind2, form2, time2, address2, hash2,
        numbers2,
    );
    clear(
        number2, ints2, exts2, accounts2, home2, owner2, kind2, form2, time2, address2, hash2,
        buckets2, numbers2,
    );
    Ok(())
}
