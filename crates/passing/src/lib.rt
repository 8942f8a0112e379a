// The inside of a fill that is taken: its entry makes the columns of numbers, and the passes run on them.
#![tactic(auto)]

ghost use Rattle.std.specs.Prelude.{◌≡◌, get_or};
ghost use Rattle.entry.specs.Entry.{sayings};
ghost use Rattle.works.specs.Begin.{accounts as accounts_of, held as held_of, slots as slots_of};
ghost use Rattle.works.specs.Works.{ran_w};
ghost use Rattle.fill_rules.specs.Passing.{MayPass, pass_w};

use message::Filter;
use moves::{Fixed, Tally};
use numbers::SlotId;
use works::Done;

// Entry and passes of a fill that is taken: `opens` slots are to be opened.
pub fn pass(
    owner: &[u16; 2048],
    kind: &[u8; 2048],
    time: &[u64; 2048],
    accounts: &[u8; 16384],
    numbers: &[u64; 528],
    number2: &[u16; 64],
    ints2: &[u8; 64],
    exts2: &[u8; 64],
    accounts2: &[u8; 32768],
    home2: &[u8; 1024],
    buckets2: [u32; 1088],
    numbers2: &[u64; 16],
    set: &[u8; 16384],
    held: usize,
    names: &[u8],
    verdicts: &[u8],
    costs: &[u64],
    rows: usize,
    default: u64,
    filter: Filter,
    height: usize,
    opens: usize,
) -> Done
    requires { MayPass (accounts_of accounts.now (get_or numbers.now 3 0) accounts2.now home2.now (get_or numbers2.now 2 0)) (held_of owner.now kind.now time.now (get_or numbers.now 2 0)) (slots_of ints2.now exts2.now number2.now buckets2) (sayings set.now held names.now verdicts.now costs.now rows default) filter height opens (get_or numbers2.now 1 0) (get_or numbers2.now 6 0) }
    ensures { ran_w result ≡ pass_w (accounts_of accounts.now (get_or numbers.now 3 0) accounts2.now home2.now (get_or numbers2.now 2 0)) (held_of owner.now kind.now time.now (get_or numbers.now 2 0)) (slots_of ints2.now exts2.now number2.now buckets2) (sayings set.now held names.now verdicts.now costs.now rows default) filter height opens (get_or numbers2.now 1 0) (get_or numbers2.now 6 0) }
{
    let n = numbers[2] as usize;
    let places = numbers[3] as usize;
    let slots = numbers2[1] as usize;
    let members = numbers2[2] as usize;
    let last = SlotId(numbers2[6] as u16);
    let work = numbered::begin(
        owner, kind, time, n, accounts, places, accounts2, home2, members, ints2, exts2, number2,
        buckets2, set, held, names, verdicts, costs, rows, default, filter, height,
    );
    let fixed = Fixed {
        rows: n,
        places,
        height,
    };
    let tally = Tally {
        joined: 0,
        accounts: members,
        taken: 0,
        ops: 0,
    };
    numbered::run(work, fixed, opens, slots, last, tally)
}
