// The join for C and Rust: it lends every column of both groups to one function of `join_cores`, and copies nothing. A group has the layout of
// those of the other export crates, whose calls set it up.
#![tactic(auto)]

ghost use Rattle.join_cores.specs.Lent.{Joins};
ghost use Rattle.export_join.specs.Held.{table_of, GoodGroup};

// A group of at most 64 slots, 1,024 accounts and 1,024 messages.
#[repr(C)]
#[derive(Clone, Copy)]
pub struct Group {
    number: [u16; 64],
    ints: [u8; 64],
    exts: [u8; 64],
    accounts: [u8; 32768],
    home: [u8; 1024],
    owner: [u16; 1024],
    kind: [u8; 1024],
    form: [u8; 1024],
    time: [u64; 1024],
    address: [u8; 32768],
    hash: [u8; 32768],
    buckets: [u32; 1088],
    numbers: [u64; 16],
}

const _: () = prove!(size_of::<Group>() == 116352 && align_of::<Group>() == 8);

// Joins the right group to the left: codes 14, 15, 12, in this order. The right is fresh afterwards; refused, both are as they were.
#[unsafe(no_mangle)]
pub extern "C" fn lintelsong_group_join(left: &mut Group, right: &mut Group) -> u8
    requires { GoodGroup left.old × GoodGroup right.old }
    ensures { Joins (table_of left.old) (table_of right.old) result (table_of left.new) (table_of right.new) }
{
    join_cores::join(
        &mut left.number,
        &mut left.ints,
        &mut left.exts,
        &mut left.accounts,
        &mut left.home,
        &mut left.owner,
        &mut left.kind,
        &mut left.form,
        &mut left.time,
        &mut left.address,
        &mut left.hash,
        &mut left.buckets,
        &mut left.numbers,
        &mut right.number,
        &mut right.ints,
        &mut right.exts,
        &mut right.accounts,
        &mut right.home,
        &mut right.owner,
        &mut right.kind,
        &mut right.form,
        &mut right.time,
        &mut right.address,
        &mut right.hash,
        &mut right.buckets,
        &mut right.numbers,
    )
}
