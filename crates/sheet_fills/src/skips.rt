// The skip rows of a sheet, laid out on the three columns that a fill takes.
ghost use Rattle.std.specs.Prelude.{◌≡◌, ◌*◌, ◌≤◌, length};
ghost use Rattle.sheet_rows.specs.Answer.{skips_at};
ghost use Rattle.sheet_fills.specs.Steps.{NamesLaid, VerdictsLaid, CostsLaid, Lays};

// The first `count` rows of each column are skip rows; a name has 32 bytes.
#[derive(Clone, Copy)]
pub struct Rows {
    pub count: usize,
    pub names: [u8; 2048],
    pub verdicts: [u8; 64],
    pub costs: [u64; 64],
}

// Writes the names of the first n accounts.
fn put_names(cells: &[u64], n: usize, names: &mut [u8; 2048])
    requires { (3 * n ≤ length cells.now) × (n ≤ 64) }
    ensures { NamesLaid cells.now n names.new }
{
    for i in 0..n {
        let name = words::name::name_of(cells[3 * i]);
        rows::put_row(names, i, &name);
    }
}

// Writes the first n verdicts.
fn put_verdicts(cells: &[u64], n: usize, verdicts: &mut [u8])
    requires { (3 * n ≤ length cells.now) × (n ≤ length verdicts.old) }
    ensures { VerdictsLaid cells.now n verdicts.new }
{
    for i in 0..n {
        verdicts[i] = if cells[3 * i + 1] == 0 { 0 } else { 1 };
    }
}

// Writes the first n costs.
fn put_costs(cells: &[u64], n: usize, costs: &mut [u64])
    requires { (3 * n ≤ length cells.now) × (n ≤ length costs.old) }
    ensures { CostsLaid cells.now n costs.new }
{
    for i in 0..n {
        costs[i] = cells[3 * i + 2];
    }
}

// The first n rows, each account, verdict, cost.
pub fn rows_of(cells: &[u64], n: usize) -> Rows
    requires { (3 * n ≤ length cells.now) × (n ≤ 64) }
    ensures { Lays (skips_at cells.now n) result }
{
    let mut names = [0u8; 2048];
    put_names(cells, n, &mut names);
    let mut verdicts = [0u8; 64];
    put_verdicts(cells, n, &mut verdicts);
    let mut costs = [0u64; 64];
    put_costs(cells, n, &mut costs);
    Rows {
        count: n,
        names,
        verdicts,
        costs,
    }
}
