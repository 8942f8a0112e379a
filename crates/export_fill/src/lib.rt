// The fill for C and Rust: it lends every column of the buffer, the group and the skipped set to one function of `fill_cores`, and copies nothing.
// The three have the layout of those of the other export crates, whose calls set them up.
#![tactic(auto)]

ghost use Rattle.fill_rules.specs.Fills.{call_of, keys, left};
ghost use Rattle.fill_answer.specs.Answers.{filter_by};
ghost use Rattle.fill_cores.specs.Lent.{FillsBy};
ghost use Rattle.export_fill.specs.Held.{cols_of, table_of, GoodBuffer, GoodGroup, GoodSet};

// A buffer for at most 1,024 messages of at most 256 accounts.
#[repr(C)]
#[derive(Clone, Copy)]
pub struct Buffer {
    owner: [u16; 2048],
    kind: [u8; 2048],
    form: [u8; 2048],
    time: [u64; 2048],
    address: [u8; 65536],
    hash: [u8; 65536],
    accounts: [u8; 16384],
    numbers: [u64; 528],
}

const _: () = prove!(size_of::<Buffer>() == 176256 && align_of::<Buffer>() == 8);

// A group of at most 64 slots, 1,024 accounts and 1,024 messages.
#[repr(C)]
#[derive(Clone, Copy)]
pub struct Group {
    number: [u16; 64],
    ints: [u8; 64],
    exts: [u8; 64],
    accounts: [u8; 32768],
    home: [u8; 1024],
    owner: [u16; 1024],
    kind: [u8; 1024],
    form: [u8; 1024],
    time: [u64; 1024],
    address: [u8; 32768],
    hash: [u8; 32768],
    buckets: [u32; 1088],
    numbers: [u64; 16],
}

const _: () = prove!(size_of::<Group>() == 116352 && align_of::<Group>() == 8);

// A set of at most 512 accounts that fills pass over.
#[repr(C)]
#[derive(Clone, Copy)]
pub struct Skipped {
    accounts: [u8; 16384],
    held: usize,
}

const _: () = prove!(size_of::<Skipped>() == 16392 && align_of::<Skipped>() == 8);

// Fills a group from a buffer: codes 9 to 13. A skip row is a name of 32 bytes, a verdict (0 does not skip) and a cost; there are as many as the
// shortest of the three lists has, and `cost` is that of an account without one. A key row is a created_lt and a hash of 32 bytes. A `filtered`
// of 0 is no filter; with any other, externals of a chain time below `below` are dropped. `out` gets how many messages were collected, the
// operations, and how many were dropped.
#[unsafe(no_mangle)]
pub extern "C" fn lintelsong_fill(
    b: &mut Buffer,
    g: &mut Group,
    s: &mut Skipped,
    names: &[u8],
    verdicts: &[u8],
    costs: &[u64],
    lts: &mut [u64],
    hashes: &mut [u8],
    out: &mut [u64; 3],
    slots: u64,
    height: u64,
    cost: u64,
    filtered: u8,
    below: u64,
) -> u8
    requires { GoodBuffer b.old × GoodGroup g.old × GoodSet s.old }
    ensures { FillsBy (call_of (cols_of b.old) (table_of g.old) s.old.accounts s.old.held slots height (filter_by filtered below) names.now verdicts.now costs.now cost) (keys lts.old hashes.old) result out.new (left (cols_of b.new) (table_of g.new) s.new.accounts s.new.held (keys lts.new hashes.new)) }
{
    fill_cores::fill(
        &mut b.owner,
        &mut b.kind,
        &mut b.form,
        &mut b.time,
        &mut b.address,
        &mut b.hash,
        &mut b.accounts,
        &mut b.numbers,
        &mut g.number,
        &mut g.ints,
        &mut g.exts,
        &mut g.accounts,
        &mut g.home,
        &mut g.owner,
        &mut g.kind,
        &mut g.form,
        &mut g.time,
        &mut g.address,
        &mut g.hash,
        &mut g.buckets,
        &mut g.numbers,
        &mut s.accounts,
        &mut s.held,
        names,
        verdicts,
        costs,
        lts,
        hashes,
        out,
        slots,
        height,
        cost,
        filtered,
        below,
    )
}
