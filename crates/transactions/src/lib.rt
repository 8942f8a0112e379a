// A transaction: what is held is copied into the backup room, copied back, or forgotten there. Begin and rollback each pass the rows that are
// held, and no others.
#![tactic(auto)]

ghost use Rattle.std.specs.Prelude.{◌≡◌, [], ◌≤◌, length};
ghost use Rattle.queues.specs.Cols.{cols};
ghost use Rattle.queues.specs.Good.{Long, Good};
ghost use Rattle.queues.specs.Append.{left};
ghost use Rattle.queues.specs.Transact.{copied_c, cleared_c, begin_c, rollback_c};
ghost use Rattle.transactions.specs.Halves.{Halves, Commits};

use message::Code;

// Where a half begins: its first message's row, and its first account's.
#[derive(Clone, Copy)]
pub struct Half {
    pub row: usize,
    pub place: usize,
}

// Copies n messages and a accounts from one half to the other.
fn copy_half(
    from: Half,
    to: Half,
    n: usize,
    a: usize,
    owner: &mut [u16; 2048],
    kind: &mut [u8; 2048],
    form: &mut [u8; 2048],
    time: &mut [u64; 2048],
    address: &mut [u8; 65536],
    hash: &mut [u8; 65536],
    accounts: &mut [u8; 16384],
)
    requires halves { Halves from.row to.row from.place to.place n a }
    requires long { Long (cols owner.old kind.old form.old time.old address.old hash.old accounts.old []) }
    ensures { (cols owner.new kind.new form.new time.new address.new hash.new accounts.new []) ≡ copied_c from.row to.row from.place to.place n a (cols owner.old kind.old form.old time.old address.old hash.old accounts.old []) }
{
    let f = from.row;
    let t = to.row;
    cells::copy(owner, f, t, n);
    cells::copy(kind, f, t, n);
    cells::copy(form, f, t, n);
    cells::copy(time, f, t, n);
    cells::copy(address, 32 * f, 32 * t, 32 * n);
    cells::copy(hash, 32 * f, 32 * t, 32 * n);
    cells::copy(accounts, 32 * from.place, 32 * to.place, 32 * a);
}

// Makes the rows of n messages and a accounts fresh.
fn clear_half(
    n: usize,
    a: usize,
    owner: &mut [u16; 2048],
    kind: &mut [u8; 2048],
    form: &mut [u8; 2048],
    time: &mut [u64; 2048],
    address: &mut [u8; 65536],
    hash: &mut [u8; 65536],
    accounts: &mut [u8; 16384],
)
    requires n_bound { (n ≤ 1024) × (a ≤ 256) }
    requires long { Long (cols owner.old kind.old form.old time.old address.old hash.old accounts.old []) }
    ensures { (cols owner.new kind.new form.new time.new address.new hash.new accounts.new []) ≡ cleared_c n a (cols owner.old kind.old form.old time.old address.old hash.old accounts.old []) }
{
    cells::clear(owner, 0, n, 0);
    cells::clear(kind, 0, n, 0);
    cells::clear(form, 0, n, 0);
    cells::clear(time, 0, n, 0);
    cells::clear(address, 0, 32 * n, 0);
    cells::clear(hash, 0, 32 * n, 0);
    cells::clear(accounts, 0, 32 * a, 0);
}

// Copies what is held into the backup room.
pub fn begin(
    owner: &mut [u16; 2048],
    kind: &mut [u8; 2048],
    form: &mut [u8; 2048],
    time: &mut [u64; 2048],
    address: &mut [u8; 65536],
    hash: &mut [u8; 65536],
    accounts: &mut [u8; 16384],
    numbers: &mut [u64; 528],
) -> Code
    requires { Good (cols owner.old kind.old form.old time.old address.old hash.old accounts.old numbers.old) }
    ensures { left result (cols owner.new kind.new form.new time.new address.new hash.new accounts.new numbers.new) ≡ begin_c (cols owner.old kind.old form.old time.old address.old hash.old accounts.old numbers.old) }
{
    keeping::may_begin(numbers)?;
    let held = keeping::held(numbers);
    let n = held.messages;
    let a = held.places;
    copy_half(
        Half { row: 0, place: 0 },
        Half {
            row: 1024,
            place: 256,
        },
        n,
        a,
        owner,
        kind,
        form,
        time,
        address,
        hash,
        accounts,
    );
    keeping::keep(numbers);
    Ok(())
}

// Forgets what was held at begin.
pub fn commit(numbers: &mut [u64; 528]) -> Code
    ensures { Commits result numbers.old numbers.new }
{
    keeping::may_end(numbers)?;
    keeping::forget(numbers);
    Ok(())
}

// Copies back what was held at begin, into rows made fresh, and makes the index anew.
pub fn rollback(
    owner: &mut [u16; 2048],
    kind: &mut [u8; 2048],
    form: &mut [u8; 2048],
    time: &mut [u64; 2048],
    address: &mut [u8; 65536],
    hash: &mut [u8; 65536],
    accounts: &mut [u8; 16384],
    numbers: &mut [u64; 528],
) -> Code
    requires { Good (cols owner.old kind.old form.old time.old address.old hash.old accounts.old numbers.old) }
    ensures { left result (cols owner.new kind.new form.new time.new address.new hash.new accounts.new numbers.new) ≡ rollback_c (cols owner.old kind.old form.old time.old address.old hash.old accounts.old numbers.old) }
{
    keeping::may_end(numbers)?;
    let held = keeping::held(numbers);
    let n = held.messages;
    let a = held.places;
    clear_half(n, a, owner, kind, form, time, address, hash, accounts);
    let kept = keeping::kept(numbers);
    let back = kept.messages;
    let places = kept.places;
    copy_half(
        Half {
            row: 1024,
            place: 256,
        },
        Half { row: 0, place: 0 },
        back,
        places,
        owner,
        kind,
        form,
        time,
        address,
        hash,
        accounts,
    );
    keeping::give_back(accounts, numbers);
    Ok(())
}
