// A removal of named accounts: their messages leave no row and they leave no place.
#![tactic(auto)]

ghost use Rattle.std.specs.Prelude.{◌≡◌};
ghost use Rattle.queues.specs.Cols.{cols};
ghost use Rattle.queues.specs.Good.{Good};
ghost use Rattle.queues.specs.Append.{left};
ghost use Rattle.queues.specs.Compact.{remove_c};

use message::{Code, Refusal};

// Removes the queues of the named accounts, 32 bytes a name; refuses if one of them holds an external. Names without a queue, names given
// twice and bytes behind the last whole name do nothing.
pub fn remove(
    names: &[u8],
    owner: &mut [u16; 2048],
    kind: &mut [u8; 2048],
    form: &mut [u8; 2048],
    time: &mut [u64; 2048],
    address: &mut [u8; 65536],
    hash: &mut [u8; 65536],
    accounts: &mut [u8; 16384],
    numbers: &mut [u64; 528],
) -> Code
    requires { Good (cols owner.old kind.old form.old time.old address.old hash.old accounts.old numbers.old) }
    ensures { left result (cols owner.new kind.new form.new time.new address.new hash.new accounts.new numbers.new) ≡ remove_c names.now (cols owner.old kind.old form.old time.old address.old hash.old accounts.old numbers.old) }
{
    let n = numbers[2] as usize;
    let a = numbers[3] as usize;
    let k = names.len() / 32;
    let mut seats = [65535u16; 256];
    let stay = leaving::seat_unnamed(accounts, a, names, k, &mut seats);
    if leaving::lost_externals(owner, kind, n, &seats) != 0 {
        return Err(Refusal::HoldsExternal);
    }
    let r = compacting::compact(
        &seats, n, a, owner, kind, form, time, address, hash, accounts,
    );
    remains::count_out(r, stay, accounts, numbers);
    Ok(())
}
