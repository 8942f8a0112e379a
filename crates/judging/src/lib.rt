// What the skipped set and the skip rows say of each party at the entry of a fill: its mark and its cost.
#![tactic(auto)]

ghost use Rattle.std.specs.Prelude.{◌≡◌, ◌+◌, ◌*◌, ◌<◌, ◌≤◌, length};
ghost use Rattle.entry.specs.Entry.{sayings, Spoken, Judges, mark_by, mark_of, cost_of, order_marks, order_costs, group_marks, group_costs};

// What is said of an account.
#[derive(Clone, Copy)]
pub struct Said {
    pub mark: u8,
    pub cost: u64,
}

// ---- one account

// The mark of an account whose first skip row is `row`, of n.
fn mark_of(set: &[u8], k: usize, verdicts: &[u8], n: usize, row: usize, x: &[u8; 32]) -> u8
    requires { (32 * k ≤ length set.now) × (n ≤ length verdicts.now) }
    ensures { result ≡ mark_by set.now k verdicts.now n row x.now }
{
    if rows::find_row(set, k, x) < k {
        return 2;
    }
    if row < n {
        if verdicts[row] != 0 {
            return 1;
        }
    }
    0
}

// What the set and the rows say of an account; its first row counts.
pub fn judge(
    set: &[u8],
    k: usize,
    names: &[u8],
    verdicts: &[u8],
    costs: &[u64],
    n: usize,
    cost: u64,
    x: &[u8; 32],
) -> Said
    requires { Spoken (sayings set.now k names.now verdicts.now costs.now n cost) }
    ensures { (result.mark ≡ mark_of (sayings set.now k names.now verdicts.now costs.now n cost) x.now) × (result.cost ≡ cost_of (sayings set.now k names.now verdicts.now costs.now n cost) x.now) }
{
    let row = rows::find_row(names, n, x);
    let mark = mark_of(set, k, verdicts, n, row, x);
    if row < n {
        return Said {
            mark,
            cost: costs[row],
        };
    }
    Said { mark, cost }
}

// ---- all parties

// Judges the accounts of the order.
pub fn judge_order(
    accounts: &[u8],
    places: usize,
    set: &[u8],
    k: usize,
    names: &[u8],
    verdicts: &[u8],
    costs: &[u64],
    n: usize,
    default: u64,
    mark: &mut [u8; 1280],
    cost: &mut [u64; 1280],
)
    requires spoken { Spoken (sayings set.now k names.now verdicts.now costs.now n default) }
    requires places_in_bounds { (32 * places ≤ length accounts.now) × (places ≤ 256) }
    ensures { Judges (order_marks (sayings set.now k names.now verdicts.now costs.now n default) accounts.now places mark.old) (order_costs (sayings set.now k names.now verdicts.now costs.now n default) accounts.now places cost.old) mark.new cost.new }
{
    for p in 0..places {
        let x = rows::get_row(accounts, p);
        let said = judge(set, k, names, verdicts, costs, n, default, &x);
        mark[p] = said.mark;
        cost[p] = said.cost;
    }
}

// Judges the accounts of the group that have no place in the order; the number of one that has is nobody's.
pub fn judge_group(
    accounts: &[u8],
    members: usize,
    member: &[u16; 1280],
    set: &[u8],
    k: usize,
    names: &[u8],
    verdicts: &[u8],
    costs: &[u64],
    n: usize,
    default: u64,
    mark: &mut [u8; 1280],
    cost: &mut [u64; 1280],
)
    requires spoken { Spoken (sayings set.now k names.now verdicts.now costs.now n default) }
    requires members_in_bounds { (32 * members ≤ length accounts.now) × (members ≤ 1024) }
    ensures { Judges (group_marks (sayings set.now k names.now verdicts.now costs.now n default) accounts.now member.now members mark.old) (group_costs (sayings set.now k names.now verdicts.now costs.now n default) accounts.now member.now members cost.old) mark.new cost.new }
{
    for g in 0..members {
        let mut said = Said {
            mark: 0,
            cost: default,
        };
        if usize::from(member[g]) == 256 + g {
            let x = rows::get_row(accounts, g);
            said = judge(set, k, names, verdicts, costs, n, default, &x);
        }
        mark[256 + g] = said.mark;
        cost[256 + g] = said.cost;
    }
}
