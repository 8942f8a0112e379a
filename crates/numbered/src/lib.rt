// The columns on numbers of one fill as one value: `begin` makes them of what the buffer, the group, the skipped set and the skip rows hold,
// and `run` does the passes on them.
#![tactic(auto)]

ghost use Rattle.std.specs.Prelude.{◌≡◌, ◌≤◌};
ghost use Rattle.buckets.specs.Cells.{GoodBuckets};
ghost use Rattle.entry.specs.Entry.{sayings, Spoken};
ghost use Rattle.works.specs.Begin.{accounts, held, slots as slots_of, FitAccounts, FitRows, Fit, homes_w, judged_by, rows_w, works_w, begin_w};
ghost use Rattle.works.specs.Run.{MayRun, run_w};
ghost use Rattle.works.specs.Works.{ran_w};

use message::Filter;
use moves::{Fixed, Tally};
use numbers::SlotId;
use works::{Done, Homes, Judged, Left, Rows, Work};

// ---- the entry

// Numbers the group's accounts, and takes their homes over. A party that is not in the group has none, 255.
fn homes_of(
    order: &[u8; 16384],
    places: usize,
    group: &[u8; 32768],
    homes: &[u8; 1024],
    members: usize,
) -> Homes
    requires { FitAccounts (accounts order.now places group.now homes.now members) }
    ensures { result ≡ homes_w (accounts order.now places group.now homes.now members) }
{
    let mut member = [0u16; 1280];
    entry::number_members(order, places, group, members, &mut member);
    let mut home = [255u8; 1280];
    entry::house(homes, members, &member, &mut home);
    Homes { member, home }
}

// Judges the accounts of the order, and those of the group that have no place in it.
fn judge_all(
    order: &[u8; 16384],
    places: usize,
    group: &[u8; 32768],
    members: usize,
    member: &[u16; 1280],
    set: &[u8; 16384],
    k: usize,
    names: &[u8],
    verdicts: &[u8],
    costs: &[u64],
    n: usize,
    default: u64,
) -> Judged
    requires few { (places ≤ 256) × (members ≤ 1024) }
    requires spoken { Spoken (sayings set.now k names.now verdicts.now costs.now n default) }
    ensures { result ≡ judged_by (sayings set.now k names.now verdicts.now costs.now n default) order.now places group.now members member.now }
{
    let mut mark = [0u8; 1280];
    let mut cost = [default; 1280];
    judging::judge_order(
        order, places, set, k, names, verdicts, costs, n, default, &mut mark, &mut cost,
    );
    judging::judge_group(
        group, members, member, set, k, names, verdicts, costs, n, default, &mut mark, &mut cost,
    );
    Judged { mark, cost }
}

// The owner of each of the buffer's n rows, and the plan with their classes and the chains of their queues. The number 1,024, which is no row,
// ends a chain.
fn rows_of(
    owner: &[u16; 2048],
    kind: &[u8; 2048],
    time: &[u64; 2048],
    n: usize,
    filter: Filter,
) -> Rows
    requires { FitRows (held owner.now kind.now time.now n) }
    ensures { result ≡ rows_w filter (held owner.now kind.now time.now n) }
{
    let mut owned = [0u16; 1024];
    planning::own(owner, n, &mut owned);
    let mut plan = [1024u16; 2304];
    planning::classify(kind, time, filter, n, &mut plan);
    planning::link(owner, n, &mut plan);
    Rows { owner: owned, plan }
}

// Puts the columns together: those of the parties and of the rows, the slots as the group has them, the slots listed below the height, and
// fresh columns for what the passes write first.
fn together(
    h: Homes,
    j: Judged,
    r: Rows,
    ints: &[u8; 64],
    exts: &[u8; 64],
    number: &[u16; 64],
    buckets: [u32; 1088],
    height: usize,
) -> Work
    requires { GoodBuckets buckets × (height ≤ 16) }
    ensures { result ≡ works_w h j r (slots_of ints.now exts.now number.now buckets) height }
{
    let mut listed = [0u16; 1024];
    let count = entry::list_below(&buckets, height, &mut listed);
    // stays: tried without these variables, and got no proof: a literal takes an array from a variable, not from a field.
    let owner = r.owner;
    let plan = r.plan;
    let home = h.home;
    let member = h.member;
    let mark = j.mark;
    let cost = j.cost;
    let inside = *ints;
    let outside = *exts;
    let numbered = *number;
    let taken = [0u16; 1024];
    let joined = [0u16; 1280];
    Work {
        owner,
        plan,
        taken,
        home,
        member,
        ints: inside,
        exts: outside,
        mark,
        cost,
        joined,
        number: numbered,
        listed,
        count,
    }
}

// All of it: the columns at the entry of a fill.
pub fn begin(
    owner: &[u16; 2048],
    kind: &[u8; 2048],
    time: &[u64; 2048],
    n: usize,
    order: &[u8; 16384],
    places: usize,
    group: &[u8; 32768],
    homes: &[u8; 1024],
    members: usize,
    ints: &[u8; 64],
    exts: &[u8; 64],
    number: &[u16; 64],
    buckets: [u32; 1088],
    set: &[u8; 16384],
    k: usize,
    names: &[u8],
    verdicts: &[u8],
    costs: &[u64],
    rows: usize,
    default: u64,
    filter: Filter,
    height: usize,
) -> Work
    requires { Fit (accounts order.now places group.now homes.now members) (held owner.now kind.now time.now n) (slots_of ints.now exts.now number.now buckets) (sayings set.now k names.now verdicts.now costs.now rows default) height }
    ensures { result ≡ begin_w (accounts order.now places group.now homes.now members) (held owner.now kind.now time.now n) (slots_of ints.now exts.now number.now buckets) (sayings set.now k names.now verdicts.now costs.now rows default) filter height }
{
    let h = homes_of(order, places, group, homes, members);
    let j = judge_all(
        order, places, group, members, &h.member, set, k, names, verdicts, costs, rows, default,
    );
    let r = rows_of(owner, kind, time, n, filter);
    together(h, j, r, ints, exts, number, buckets, height)
}

// ---- the passes

// A fill between its entry and its end: `opens` slots are to be opened behind the `slots` that stand, with the numbers behind the last.
pub fn run(work: Work, fixed: Fixed, opens: usize, slots: usize, last: SlotId, tally: Tally) -> Done
    requires { MayRun work fixed opens slots last.0 tally }
    ensures { ran_w result ≡ run_w work fixed opens slots last.0 tally }
{
    let mut owner = work.owner;
    let plan = work.plan;
    let mut taken = work.taken;
    let mut home = work.home;
    let mut member = work.member;
    let mut ints = work.ints;
    let mut exts = work.exts;
    let mut mark = work.mark;
    let mut joined = work.joined;
    let mut number = work.number;
    let listed = work.listed;
    let count = work.count;
    let ran = passes::run(
        &mut owner,
        &plan,
        &mut taken,
        &mut home,
        &mut member,
        &mut ints,
        &mut exts,
        &mut mark,
        &work.cost,
        &mut joined,
        &mut number,
        &listed,
        fixed,
        count,
        opens,
        slots,
        last,
        tally,
    );
    let counts = ran.tally;
    let given = ran.last;
    Done {
        left: Left {
            owner,
            taken,
            home,
            member,
            ints,
            exts,
            mark,
            joined,
            number,
        },
        tally: counts,
        slots: ran.slots,
        last: given,
        dropped: ran.dropped,
    }
}
