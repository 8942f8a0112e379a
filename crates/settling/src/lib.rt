// The end of a fill: what a run left on numbers goes to the key list, the skipped set, the group and the buffer.
#![tactic(auto)]

ghost use Rattle.std.specs.Prelude.{◌≡◌, length};
ghost use Rattle.queues.specs.Cols.{cols};
ghost use Rattle.slots.specs.Table.{table};
ghost use Rattle.works.specs.Works.{ran_w};
ghost use Rattle.settle_rules.specs.Facts.{TableSettled};
ghost use Rattle.settle_rules.specs.Settling.{no_seats, messages, MayTake, Took, MayRenumber, Renumbered, from, MaySettleGroup, internals_of, MaySettle, Settled, MayTell, Told};

use works::Done;

// The n rows taken go behind the `at` messages of the group. The owner of each is the seat of the party that gave it, among the members.
fn take_rows(
    left: &[u16; 1024],
    taken: &[u16; 1024],
    n: usize,
    member: &[u16; 1280],
    members: usize,
    at: usize,
    kind: &[u8; 2048],
    form: &[u8; 2048],
    time: &[u64; 2048],
    address: &[u8; 65536],
    hash: &[u8; 65536],
    owner2: &mut [u16; 1024],
    kind2: &mut [u8; 1024],
    form2: &mut [u8; 1024],
    time2: &mut [u64; 1024],
    address2: &mut [u8; 32768],
    hash2: &mut [u8; 32768],
)
    requires { MayTake left.now taken.now n member.now members at (length kind.now) (length form.now) (length time.now) (length address.now) (length hash.now) (length owner2.old) (length kind2.old) (length form2.old) (length time2.old) (length address2.old) (length hash2.old) }
    ensures { Took taken.now n member.now members at
        (messages left.now kind.now form.now time.now address.now hash.now)
        (messages owner2.old kind2.old form2.old time2.old address2.old hash2.old)
        (messages owner2.new kind2.new form2.new time2.new address2.new hash2.new) }
{
    let mut seat = [0u16; 1280];
    collecting::seat_members(member, members, &mut seat);
    collecting::collect_owners(left, taken, n, &seat, owner2, at);
    collecting::collect_fields(taken, n, kind, form, time, kind2, form2, time2, at);
    collecting::collect_bodies(taken, n, address, hash, address2, hash2, at);
}

// The slots have the numbers and counts that the run left, and the index follows them.
fn renumber(
    slots: usize,
    number: [u16; 64],
    ints: [u8; 64],
    exts: [u8; 64],
    number2: &mut [u16; 64],
    ints2: &mut [u8; 64],
    exts2: &mut [u8; 64],
    buckets2: &mut [u32; 1088],
)
    requires { MayRenumber slots number ints exts number2.old ints2.old exts2.old buckets2.old }
    ensures { Renumbered slots number ints exts ints2.old exts2.old buckets2.old number2.new ints2.new exts2.new buckets2.new }
{
    let olds = joins::join::counts_of(64, ints2, exts2);
    let inside = ints;
    let outside = exts;
    let news = joins::join::counts_of(64, &inside, &outside);
    let ids = number;
    let cells = *buckets2;
    let made = indexing::reindex(cells, &ids, &olds, &news, slots);
    *buckets2 = made;
    *number2 = ids;
    *ints2 = inside;
    *exts2 = outside;
}

// The group after a run: its slots and index, the rows taken, the members that entered, and its numbers. `ints` of the rows taken are
// internals, and `opens` slots were to be opened.
fn settle_group(
    done: Done,
    opens: usize,
    ints: usize,
    kind: &[u8; 2048],
    form: &[u8; 2048],
    time: &[u64; 2048],
    address: &[u8; 65536],
    hash: &[u8; 65536],
    accounts: &[u8; 16384],
    number2: &mut [u16; 64],
    ints2: &mut [u8; 64],
    exts2: &mut [u8; 64],
    accounts2: &mut [u8; 32768],
    home2: &mut [u8; 1024],
    owner2: &mut [u16; 1024],
    kind2: &mut [u8; 1024],
    form2: &mut [u8; 1024],
    time2: &mut [u64; 1024],
    address2: &mut [u8; 32768],
    hash2: &mut [u8; 32768],
    buckets2: &mut [u32; 1088],
    numbers2: &mut [u64; 16],
)
    requires may_settle_group { MaySettleGroup (from kind.now form.now time.now address.now hash.now accounts.now) (table number2.old ints2.old exts2.old accounts2.old home2.old owner2.old kind2.old form2.old time2.old address2.old hash2.old buckets2.old numbers2.old) (ran_w done) }
    requires ints_value { ints ≡ internals_of kind.now (ran_w done) }
    ensures { TableSettled (table number2.old ints2.old exts2.old accounts2.old home2.old owner2.old kind2.old form2.old time2.old address2.old hash2.old buckets2.old numbers2.old) (table number2.new ints2.new exts2.new accounts2.new home2.new owner2.new kind2.new form2.new time2.new address2.new hash2.new buckets2.new numbers2.new) (from kind.now form.now time.now address.now hash.now accounts.now) (ran_w done) opens no_seats }
{
    let run = done.left;
    let tally = done.tally;
    let n = tally.taken;
    let members = tally.accounts;
    let left = run.owner;
    let taken = run.taken;
    let member = run.member;
    let home = run.home;
    let first = numbers2[2] as usize;
    let at = numbers2[3] as usize;
    take_rows(
        &left, &taken, n, &member, members, at, kind, form, time, address, hash, owner2, kind2,
        form2, time2, address2, hash2,
    );
    collecting::enter(
        &member,
        first,
        members - first,
        accounts,
        &home,
        accounts2,
        home2,
    );
    let number = run.number;
    let inside = run.ints;
    let outside = run.exts;
    renumber(
        done.slots, number, inside, outside, number2, ints2, exts2, buckets2,
    );
    let last = done.last;
    collecting::count_in(
        done.slots,
        members,
        n,
        ints,
        opens,
        usize::from(last.0),
        numbers2,
    );
}

// The keys of the rows taken go to the key list, the parties that joined to the set. Says how many of the rows are internals.
fn tell(
    done: Done,
    kind: &[u8; 2048],
    time: &[u64; 2048],
    hash: &[u8; 65536],
    accounts: &[u8; 16384],
    accounts2: &[u8; 32768],
    set: &mut [u8; 16384],
    held: &mut usize,
    lts: &mut [u64],
    hashes: &mut [u8],
) -> usize
    requires { MayTell kind.now (length time.now) (length hash.now) (length accounts.now) (length accounts2.now) (ran_w done) (length set.old) held.old (length lts.old) (length hashes.old) }
    ensures { Told kind.now time.now hash.now accounts.now accounts2.now (ran_w done) set.old set.new held.old held.new lts.old lts.new hashes.old hashes.new result }
{
    let run = done.left;
    let tally = done.tally;
    let taken = run.taken;
    let joined = run.joined;
    let ints = telling::keys(&taken, tally.taken, kind, time, hash, lts, hashes);
    let k = *held;
    telling::join_set(&joined, tally.joined, accounts, accounts2, set, k);
    *held = k + tally.joined;
    ints
}

// The whole end.
pub fn settle(
    done: Done,
    opens: usize,
    owner: &mut [u16; 2048],
    kind: &mut [u8; 2048],
    form: &mut [u8; 2048],
    time: &mut [u64; 2048],
    address: &mut [u8; 65536],
    hash: &mut [u8; 65536],
    accounts: &mut [u8; 16384],
    numbers: &mut [u64; 528],
    number2: &mut [u16; 64],
    ints2: &mut [u8; 64],
    exts2: &mut [u8; 64],
    accounts2: &mut [u8; 32768],
    home2: &mut [u8; 1024],
    owner2: &mut [u16; 1024],
    kind2: &mut [u8; 1024],
    form2: &mut [u8; 1024],
    time2: &mut [u64; 1024],
    address2: &mut [u8; 32768],
    hash2: &mut [u8; 32768],
    buckets2: &mut [u32; 1088],
    numbers2: &mut [u64; 16],
    set: &mut [u8; 16384],
    held: &mut usize,
    lts: &mut [u64],
    hashes: &mut [u8],
)
    requires { MaySettle (cols owner.old kind.old form.old time.old address.old hash.old accounts.old numbers.old) (table number2.old ints2.old exts2.old accounts2.old home2.old owner2.old kind2.old form2.old time2.old address2.old hash2.old buckets2.old numbers2.old) (ran_w done) set.old held.old (length lts.old) (length hashes.old) }
    ensures { Settled (cols owner.old kind.old form.old time.old address.old hash.old accounts.old numbers.old) (cols owner.new kind.new form.new time.new address.new hash.new accounts.new numbers.new) (table number2.old ints2.old exts2.old accounts2.old home2.old owner2.old kind2.old form2.old time2.old address2.old hash2.old buckets2.old numbers2.old) (table number2.new ints2.new exts2.new accounts2.new home2.new owner2.new kind2.new form2.new time2.new address2.new hash2.new buckets2.new numbers2.new) (ran_w done) opens set.old set.new held.old held.new lts.old lts.new hashes.old hashes.new }
{
    let ints = tell(
        done, kind, time, hash, accounts, accounts2, set, held, lts, hashes,
    );
    settle_group(
        done, opens, ints, kind, form, time, address, hash, accounts, number2, ints2, exts2,
        accounts2, home2, owner2, kind2, form2, time2, address2, hash2, buckets2, numbers2,
    );
    let run = done.left;
    let left = run.owner;
    buffer_end::settle_buffer(
        &left, owner, kind, form, time, address, hash, accounts, numbers,
    );
}
