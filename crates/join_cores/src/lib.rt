// The join for C and Rust on lent columns, below its export: the join of crate `merging`, and its code as a number. The right's columns have a 2.
#![tactic(auto)]

ghost use Rattle.slots.specs.Good.{Good};
ghost use Rattle.slots.specs.Table.{table};
ghost use Rattle.join_cores.specs.Lent.{Joins};

pub fn join(
    number: &mut [u16; 64],
    ints: &mut [u8; 64],
    exts: &mut [u8; 64],
    accounts: &mut [u8; 32768],
    home: &mut [u8; 1024],
    owner: &mut [u16; 1024],
    kind: &mut [u8; 1024],
    form: &mut [u8; 1024],
    time: &mut [u64; 1024],
    address: &mut [u8; 32768],
    hash: &mut [u8; 32768],
    buckets: &mut [u32; 1088],
    numbers: &mut [u64; 16],
    number2: &mut [u16; 64],
    ints2: &mut [u8; 64],
    exts2: &mut [u8; 64],
    accounts2: &mut [u8; 32768],
    home2: &mut [u8; 1024],
    owner2: &mut [u16; 1024],
    kind2: &mut [u8; 1024],
    form2: &mut [u8; 1024],
    time2: &mut [u64; 1024],
    address2: &mut [u8; 32768],
    hash2: &mut [u8; 32768],
    buckets2: &mut [u32; 1088],
    numbers2: &mut [u64; 16],
) -> u8
    requires { Good (table number.old ints.old exts.old accounts.old home.old owner.old kind.old form.old time.old address.old hash.old buckets.old numbers.old) × Good (table number2.old ints2.old exts2.old accounts2.old home2.old owner2.old kind2.old form2.old time2.old address2.old hash2.old buckets2.old numbers2.old) }
    ensures { Joins (table number.old ints.old exts.old accounts.old home.old owner.old kind.old form.old time.old address.old hash.old buckets.old numbers.old) (table number2.old ints2.old exts2.old accounts2.old home2.old owner2.old kind2.old form2.old time2.old address2.old hash2.old buckets2.old numbers2.old) result (table number.new ints.new exts.new accounts.new home.new owner.new kind.new form.new time.new address.new hash.new buckets.new numbers.new) (table number2.new ints2.new exts2.new accounts2.new home2.new owner2.new kind2.new form2.new time2.new address2.new hash2.new buckets2.new numbers2.new) }
{
    let code = merging::join(
        number, ints, exts, accounts, home, owner, kind, form, time, address, hash, buckets,
        numbers, number2, ints2, exts2, accounts2, home2, owner2, kind2, form2, time2, address2,
        hash2, buckets2, numbers2,
    );
    message::number_of(code)
}
