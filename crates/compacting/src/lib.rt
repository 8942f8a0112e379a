// Messages and accounts packed by the seats that the accounts get. A removal packs so, and so does the end of a fill.
#![tactic(auto)]

ghost use Rattle.std.specs.Prelude.{◌≡◌, [], ◌≤◌};
ghost use Rattle.queues.specs.Cols.{cols};
ghost use Rattle.queues.specs.Compact.{moved_c, Compacted};

// Gives each of the first n messages its owner's new place. Messages that are gone keep their mark.
fn move_owners(owner: &mut [u16; 2048], n: usize, seats: &[u16; 256])
    requires { n ≤ 1024 }
    ensures { owner.new ≡ moved_c n seats.now owner.old }
{
    for o in &mut owner[..n] {
        if packing::is_place(*o) {
            *o = seats[usize::from(*o)];
        }
    }
}

// Packs n messages and a accounts by the seats that the accounts get, and says how many messages are left.
pub fn compact(
    seats: &[u16; 256],
    n: usize,
    a: usize,
    owner: &mut [u16; 2048],
    kind: &mut [u8; 2048],
    form: &mut [u8; 2048],
    time: &mut [u64; 2048],
    address: &mut [u8; 65536],
    hash: &mut [u8; 65536],
    accounts: &mut [u8; 16384],
) -> usize
    requires { (n ≤ 1024) × (a ≤ 256) }
    ensures { Compacted n a seats.now (cols owner.old kind.old form.old time.old address.old hash.old accounts.old []) (cols owner.new kind.new form.new time.new address.new hash.new accounts.new []) result }
{
    move_owners(owner, n, seats);
    packing::pack(kind, owner, n, 0);
    packing::pack(form, owner, n, 0);
    packing::pack(time, owner, n, 0);
    packing::pack_rows(address, owner, n);
    packing::pack_rows(hash, owner, n);
    packing::pack_rows(accounts, seats, a);
    owners::pack_owners(owner, n)
}
