// The fill for C and Rust on lent columns, below its export: the fill of crate `fills`, and its answer in numbers. The group's columns have a 2.
#![tactic(auto)]

ghost use Rattle.std.specs.Prelude.{◌≡◌};
ghost use Rattle.queues.specs.Cols.{cols};
ghost use Rattle.queues.specs.Good.{Good};
ghost use Rattle.slots.specs.Good.{Good as GroupGood};
ghost use Rattle.skipped.specs.Sets.{GoodRows};
ghost use Rattle.slots.specs.Table.{table};
ghost use Rattle.fill_rules.specs.Fills.{call_of, keys, left};
ghost use Rattle.fill_answer.specs.Answers.{filter_by};
ghost use Rattle.fill_cores.specs.Lent.{FillsBy};

pub fn fill(
    owner: &mut [u16; 2048],
    kind: &mut [u8; 2048],
    form: &mut [u8; 2048],
    time: &mut [u64; 2048],
    address: &mut [u8; 65536],
    hash: &mut [u8; 65536],
    accounts: &mut [u8; 16384],
    numbers: &mut [u64; 528],
    number2: &mut [u16; 64],
    ints2: &mut [u8; 64],
    exts2: &mut [u8; 64],
    accounts2: &mut [u8; 32768],
    home2: &mut [u8; 1024],
    owner2: &mut [u16; 1024],
    kind2: &mut [u8; 1024],
    form2: &mut [u8; 1024],
    time2: &mut [u64; 1024],
    address2: &mut [u8; 32768],
    hash2: &mut [u8; 32768],
    buckets2: &mut [u32; 1088],
    numbers2: &mut [u64; 16],
    set: &mut [u8; 16384],
    held: &mut usize,
    names: &[u8],
    verdicts: &[u8],
    costs: &[u64],
    lts: &mut [u64],
    hashes: &mut [u8],
    out: &mut [u64; 3],
    slots: u64,
    height: u64,
    cost: u64,
    filtered: u8,
    below: u64,
) -> u8
    requires { Good (cols owner.old kind.old form.old time.old address.old hash.old accounts.old numbers.old) × GroupGood (table number2.old ints2.old exts2.old accounts2.old home2.old owner2.old kind2.old form2.old time2.old address2.old hash2.old buckets2.old numbers2.old) × GoodRows held.old set.old }
    ensures { FillsBy (call_of (cols owner.old kind.old form.old time.old address.old hash.old accounts.old numbers.old) (table number2.old ints2.old exts2.old accounts2.old home2.old owner2.old kind2.old form2.old time2.old address2.old hash2.old buckets2.old numbers2.old) set.old held.old slots height (filter_by filtered below) names.now verdicts.now costs.now cost) (keys lts.old hashes.old) result out.new (left (cols owner.new kind.new form.new time.new address.new hash.new accounts.new numbers.new) (table number2.new ints2.new exts2.new accounts2.new home2.new owner2.new kind2.new form2.new time2.new address2.new hash2.new buckets2.new numbers2.new) set.new held.new (keys lts.new hashes.new)) }
{
    let filter = fill_answer::filter_by(filtered, below);
    let a = fills::fill(
        owner, kind, form, time, address, hash, accounts, numbers, number2, ints2, exts2,
        accounts2, home2, owner2, kind2, form2, time2, address2, hash2, buckets2, numbers2, set,
        held, slots, height, filter, names, verdicts, costs, cost, lts, hashes,
    );
    let code = a.code;
    *out = fill_answer::counts(a);
    message::number_of(code)
}
