// What each export that changes a buffer does, on lent columns: the call of the core, and its code as a number.
ghost use Rattle.std.specs.Prelude.{◌≡◌, ◌/◌, length};
ghost use Rattle.rules.specs.Calls.{add_message, remove_accounts, begin as begin_by, rollback as rollback_by};
ghost use Rattle.columns.specs.Rows.{rows_of};
ghost use Rattle.message.specs.Real.{Real, offer};
ghost use Rattle.queues.specs.Cols.{cols};
ghost use Rattle.queues.specs.Meant.{meant};
ghost use Rattle.queues.specs.Good.{Good};
ghost use Rattle.queues.specs.Append.{add_c};
ghost use Rattle.queues.specs.Compact.{remove_c};
ghost use Rattle.queues.specs.Transact.{begin_c, rollback_c};
ghost use Rattle.export_parts.specs.Parts.{message_of};
ghost use Rattle.buffer_cores.specs.Told.{Gives};
ghost use Rattle.export_buffer.specs.Lent.{Commits};

pub fn add(
    owner: &mut [u16; 2048],
    kind: &mut [u8; 2048],
    form: &mut [u8; 2048],
    time: &mut [u64; 2048],
    address: &mut [u8; 65536],
    hash: &mut [u8; 65536],
    accounts: &mut [u8; 16384],
    numbers: &mut [u64; 528],
    to: &[u8; 32],
    hashed: &[u8; 32],
    sent: u64,
    sort: u8,
    special: u8,
    shape: u8,
) -> u8
    requires { Good (cols owner.old kind.old form.old time.old address.old hash.old accounts.old numbers.old) }
    ensures { Gives (add_message Real (offer (message_of to.now hashed.now sent sort special shape)) (meant (cols owner.old kind.old form.old time.old address.old hash.old accounts.old numbers.old))) (add_c (message_of to.now hashed.now sent sort special shape) (cols owner.old kind.old form.old time.old address.old hash.old accounts.old numbers.old)) result (cols owner.new kind.new form.new time.new address.new hash.new accounts.new numbers.new) }
{
    let m = export_parts::message_of(to, hashed, sent, sort, special, shape);
    let code = append::add(m, owner, kind, form, time, address, hash, accounts, numbers);
    message::number_of(code)
}

pub fn remove(
    owner: &mut [u16; 2048],
    kind: &mut [u8; 2048],
    form: &mut [u8; 2048],
    time: &mut [u64; 2048],
    address: &mut [u8; 65536],
    hash: &mut [u8; 65536],
    accounts: &mut [u8; 16384],
    numbers: &mut [u64; 528],
    names: &[u8],
) -> u8
    requires { Good (cols owner.old kind.old form.old time.old address.old hash.old accounts.old numbers.old) }
    ensures { Gives (remove_accounts Real (rows_of (length names.now / 32) names.now) (meant (cols owner.old kind.old form.old time.old address.old hash.old accounts.old numbers.old))) (remove_c names.now (cols owner.old kind.old form.old time.old address.old hash.old accounts.old numbers.old)) result (cols owner.new kind.new form.new time.new address.new hash.new accounts.new numbers.new) }
{
    let code = removal::remove(
        names, owner, kind, form, time, address, hash, accounts, numbers,
    );
    message::number_of(code)
}

pub fn begin(
    owner: &mut [u16; 2048],
    kind: &mut [u8; 2048],
    form: &mut [u8; 2048],
    time: &mut [u64; 2048],
    address: &mut [u8; 65536],
    hash: &mut [u8; 65536],
    accounts: &mut [u8; 16384],
    numbers: &mut [u64; 528],
) -> u8
    requires { Good (cols owner.old kind.old form.old time.old address.old hash.old accounts.old numbers.old) }
    ensures { Gives (begin_by Real (meant (cols owner.old kind.old form.old time.old address.old hash.old accounts.old numbers.old))) (begin_c (cols owner.old kind.old form.old time.old address.old hash.old accounts.old numbers.old)) result (cols owner.new kind.new form.new time.new address.new hash.new accounts.new numbers.new) }
{
    let code = transactions::begin(owner, kind, form, time, address, hash, accounts, numbers);
    message::number_of(code)
}

pub fn commit(numbers: &mut [u64; 528]) -> u8
    ensures { Commits result numbers.old numbers.new }
{
    let code = transactions::commit(numbers);
    message::number_of(code)
}

pub fn rollback(
    owner: &mut [u16; 2048],
    kind: &mut [u8; 2048],
    form: &mut [u8; 2048],
    time: &mut [u64; 2048],
    address: &mut [u8; 65536],
    hash: &mut [u8; 65536],
    accounts: &mut [u8; 16384],
    numbers: &mut [u64; 528],
) -> u8
    requires { Good (cols owner.old kind.old form.old time.old address.old hash.old accounts.old numbers.old) }
    ensures { Gives (rollback_by Real (meant (cols owner.old kind.old form.old time.old address.old hash.old accounts.old numbers.old))) (rollback_c (cols owner.old kind.old form.old time.old address.old hash.old accounts.old numbers.old)) result (cols owner.new kind.new form.new time.new address.new hash.new accounts.new numbers.new) }
{
    let code = transactions::rollback(owner, kind, form, time, address, hash, accounts, numbers);
    message::number_of(code)
}
