// The rows of a join: the right's accounts, messages and records behind the left's, column by column. Nothing is copied that stays.
#![tactic(auto)]

ghost use Rattle.std.specs.Prelude.{length};
ghost use Rattle.slots.specs.Join.{AccountsJoined, MessagesJoined, RecordsJoined};
ghost use Rattle.row_joins.specs.Rooms.{AccountRoom, MessageRoom, RecordRoom};

// The right's n accounts behind the left's, each with its home behind the left's slots.
pub fn join_accounts(
    held: usize,
    n: usize,
    slots: u8,
    accounts: &mut [u8; 32768],
    home: &mut [u8; 1024],
    accounts2: &[u8; 32768],
    home2: &[u8; 1024],
)
    requires { AccountRoom held n slots home2.now (length accounts.old) (length home.old) (length accounts2.now) }
    ensures { AccountsJoined held n slots accounts2.now home2.now accounts.old home.old accounts.new home.new }
{
    laying::lay(accounts, 32 * held, accounts2, 32 * n);
    laying::raise(home, held, home2, n, slots);
}

// The right's n messages behind the left's, each with its owner behind the left's accounts.
pub fn join_messages(
    held: usize,
    n: usize,
    accounts: u16,
    owner: &mut [u16; 1024],
    kind: &mut [u8; 1024],
    form: &mut [u8; 1024],
    time: &mut [u64; 1024],
    owner2: &[u16; 1024],
    kind2: &[u8; 1024],
    form2: &[u8; 1024],
    time2: &[u64; 1024],
)
    requires { MessageRoom held n accounts owner2.now (length owner.old) (length kind.old) (length form.old) (length time.old) (length kind2.now) (length form2.now) (length time2.now) }
    ensures { MessagesJoined held n accounts owner2.now kind2.now form2.now time2.now owner.old kind.old form.old time.old owner.new kind.new form.new time.new }
{
    laying::raise(owner, held, owner2, n, accounts);
    laying::lay(kind, held, kind2, n);
    laying::lay(form, held, form2, n);
    laying::lay(time, held, time2, n);
}

// The records of the right's n messages behind the left's.
pub fn join_records(
    held: usize,
    n: usize,
    address: &mut [u8; 32768],
    hash: &mut [u8; 32768],
    address2: &[u8; 32768],
    hash2: &[u8; 32768],
)
    requires { RecordRoom held n (length address.old) (length hash.old) (length address2.now) (length hash2.now) }
    ensures { RecordsJoined held n address2.now hash2.now address.old hash.old address.new hash.new }
{
    laying::lay(address, 32 * held, address2, 32 * n);
    laying::lay(hash, 32 * held, hash2, 32 * n);
}
