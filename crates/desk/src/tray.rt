// The tray: what is laid ready for a fill, and whether states are printed. The rows of the key list lie on two columns that are lent.
ghost use Rattle.desk.specs.Desks.{GoodTray, KeyRoom};

use lintelsong::Skipped;
use scenario::commands::{SkipRow, TrayOrder};

// Whether states are printed; the skipped set; the skip rows, of which the first `rows` are kept, up to 300; the cost of an account without
// a row; and how many rows the key list has.
// stays: the rule of fixed memory: rows are counted beside their arrays, which a fill is lent column by column.
#[derive(Clone, Copy)]
pub struct Tray {
    pub loud: bool,
    pub skipped: Skipped,
    pub rows: usize,
    pub names: [u8; 9600],
    pub verdicts: [u8; 300],
    pub costs: [u64; 300],
    pub cost: u64,
    pub keys: usize,
}

// The tray at the start: loud, an empty set, no rows, cost 0, no key rows.
pub fn fresh() -> Tray
    ensures { GoodTray result }
{
    Tray {
        loud: true,
        skipped: Skipped::fresh(),
        rows: 0,
        names: [0u8; 9600],
        verdicts: [0u8; 300],
        costs: [0u64; 300],
        cost: 0,
        keys: 0,
    }
}

// One more skip row, if fewer than 300 are kept.
fn row(t: &mut Tray, r: SkipRow)
    requires { GoodTray t.old }
    ensures { GoodTray t.new }
{
    let i = t.rows;
    if 300 <= i {
        return;
    }
    rows::put_row(&mut t.names, i, &words::name::name_of(r.account));
    t.verdicts[i] = r.verdict;
    t.costs[i] = r.cost;
    t.rows = i + 1;
}

// A key list of n zero rows, up to 2,048.
fn keys(t: &mut Tray, n: usize, lts: &mut [u64], hashes: &mut [u8])
    requires { GoodTray t.old × KeyRoom lts.old hashes.old }
    ensures { GoodTray t.new }
{
    if 2048 < n {
        return;
    }
    lts[..n].fill(0);
    hashes[..32 * n].fill(0);
    t.keys = n;
}

// Does an order once. Its answer is code 0.
fn obey(t: &mut Tray, o: TrayOrder, lts: &mut [u64], hashes: &mut [u8])
    requires { GoodTray t.old × KeyRoom lts.old hashes.old }
    ensures { GoodTray t.new }
{
    match o {
        TrayOrder::Rows => t.rows = 0,
        TrayOrder::Row(r) => row(t, r),
        TrayOrder::Cost(cost) => t.cost = cost,
        TrayOrder::Set => t.skipped = Skipped::fresh(),
        TrayOrder::Keys(n) => keys(t, n, lts, hashes),
        TrayOrder::Quiet => t.loud = false,
        TrayOrder::Loud => t.loud = true,
    }
}

// Does an order so many times.
pub fn repeat(mut t: Tray, times: u64, o: TrayOrder, lts: &mut [u64], hashes: &mut [u8]) -> Tray
    requires { GoodTray t × KeyRoom lts.old hashes.old }
    ensures { GoodTray result }
{
    for _ in 0..times {
        obey(&mut t, o, lts, hashes);
    }
    t
}
