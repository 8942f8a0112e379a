// The fill on lent columns: refused, or ended with nothing to do, or entry, passes and end one after the other. The buffer's columns come first,
// then the group's (with a 2), the skipped set with how many accounts it holds, the arguments, and the key list.
#![tactic(auto)]

ghost use Rattle.queues.specs.Cols.{cols};
ghost use Rattle.queues.specs.Good.{Good};
ghost use Rattle.slots.specs.Good.{Good as GroupGood};
ghost use Rattle.slots.specs.Table.{table};
ghost use Rattle.skipped.specs.Sets.{GoodRows};
ghost use Rattle.fill_rules.specs.Fills.{call_of, keys, says, left, Fills};

use fill_answer::Answer;
use message::Filter;

// A fill: codes 9 to 13.
pub fn fill(
    owner: &mut [u16; 2048],
    kind: &mut [u8; 2048],
    form: &mut [u8; 2048],
    time: &mut [u64; 2048],
    address: &mut [u8; 65536],
    hash: &mut [u8; 65536],
    accounts: &mut [u8; 16384],
    numbers: &mut [u64; 528],
    number2: &mut [u16; 64],
    ints2: &mut [u8; 64],
    exts2: &mut [u8; 64],
    accounts2: &mut [u8; 32768],
    home2: &mut [u8; 1024],
    owner2: &mut [u16; 1024],
    kind2: &mut [u8; 1024],
    form2: &mut [u8; 1024],
    time2: &mut [u64; 1024],
    address2: &mut [u8; 32768],
    hash2: &mut [u8; 32768],
    buckets2: &mut [u32; 1088],
    numbers2: &mut [u64; 16],
    set: &mut [u8; 16384],
    held: &mut usize,
    asked: u64,
    height: u64,
    filter: Filter,
    names: &[u8],
    verdicts: &[u8],
    costs: &[u64],
    default: u64,
    lts: &mut [u64],
    hashes: &mut [u8],
) -> Answer
    requires { Good (cols owner.old kind.old form.old time.old address.old hash.old accounts.old numbers.old) × GroupGood (table number2.old ints2.old exts2.old accounts2.old home2.old owner2.old kind2.old form2.old time2.old address2.old hash2.old buckets2.old numbers2.old) × GoodRows held.old set.old }
    ensures { Fills (call_of (cols owner.old kind.old form.old time.old address.old hash.old accounts.old numbers.old) (table number2.old ints2.old exts2.old accounts2.old home2.old owner2.old kind2.old form2.old time2.old address2.old hash2.old buckets2.old numbers2.old) set.old held.old asked height filter names.now verdicts.now costs.now default) (keys lts.old hashes.old) (says result.code result.collected result.operations result.dropped) (left (cols owner.new kind.new form.new time.new address.new hash.new accounts.new numbers.new) (table number2.new ints2.new exts2.new accounts2.new home2.new owner2.new kind2.new form2.new time2.new address2.new hash2.new buckets2.new numbers2.new) set.new held.new (keys lts.new hashes.new)) }
{
    let rows = limits::rows_said(names, verdicts, costs);
    let keys = limits::key_rows(lts, hashes);
    let k = *held;
    let cells = *buckets2;
    let code = refusals::decide(
        asked, height, keys, rows, verdicts, k, numbers, number2, ints2, exts2, cells, numbers2,
    );
    if code.is_err() {
        return Answer {
            code,
            collected: 0,
            operations: 0,
            dropped: 0,
        };
    }
    let opens = entry::to_open(asked as usize, numbers2[1] as usize);
    let places = numbers[3];
    if standstill::idle(places, opens, height as usize, filter, cells) {
        return Answer {
            code,
            collected: 0,
            operations: places,
            dropped: 0,
        };
    }
    let done = passing::pass(
        owner,
        kind,
        time,
        accounts,
        numbers,
        number2,
        ints2,
        exts2,
        accounts2,
        home2,
        cells,
        numbers2,
        set,
        k,
        names,
        verdicts,
        costs,
        rows,
        default,
        filter,
        height as usize,
        opens,
    );
    settling::settle(
        done, opens, owner, kind, form, time, address, hash, accounts, numbers, number2, ints2,
        exts2, accounts2, home2, owner2, kind2, form2, time2, address2, hash2, buckets2, numbers2,
        set, held, lts, hashes,
    );
    let tally = done.tally;
    fill_answer::answer_of(code, tally, done.dropped)
}
