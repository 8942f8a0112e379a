// The buffer at the end of a fill: packed, numbered and indexed anew.
#![tactic(auto)]

ghost use Rattle.std.specs.Prelude.{◌≡◌, length};
ghost use Rattle.queues.specs.Cols.{cols};
ghost use Rattle.queues.specs.Good.{Good};
ghost use Rattle.settle.specs.Ends.{filled_c};

// Packs the buffer by the owners that a fill left: rows taken or dropped go, and accounts without a row. The index is made anew.
pub fn settle_buffer(
    left: &[u16; 1024],
    owner: &mut [u16; 2048],
    kind: &mut [u8; 2048],
    form: &mut [u8; 2048],
    time: &mut [u64; 2048],
    address: &mut [u8; 65536],
    hash: &mut [u8; 65536],
    accounts: &mut [u8; 16384],
    numbers: &mut [u64; 528],
)
    requires { Good (cols owner.old kind.old form.old time.old address.old hash.old accounts.old numbers.old) }
    ensures { cols owner.new kind.new form.new time.new address.new hash.new accounts.new numbers.new ≡ filled_c left.now (cols owner.old kind.old form.old time.old address.old hash.old accounts.old numbers.old) }
{
    let n = numbers[2] as usize;
    let a = numbers[3] as usize;
    let mut seats = [65535u16; 256];
    let stay = holders::seat_holders(left, n, a, &mut seats);
    laying::lay(owner, 0, left, n);
    let r = compacting::compact(
        &seats, n, a, owner, kind, form, time, address, hash, accounts,
    );
    let ints = leftover::count_internals(kind, r);
    leftover::count_left(r, stay, ints, numbers);
    index::rebuild(accounts, stay, numbers);
}
