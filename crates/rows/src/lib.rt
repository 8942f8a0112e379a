// Rows of 32 bytes in a flat column: compared, read, written, copied and looked for.
#![tactic(auto)]

ghost use Rattle.std.specs.Prelude.{◌≡◌, ◌+◌, ◌*◌, ◌≤◌, length};
ghost use Rattle.numbers.specs.Bytes.{eq_l};
ghost use Rattle.columns.specs.Laid.{laid_at};
ghost use Rattle.columns.specs.Rows.{row_at, rows_of, index_of};

// Whether row i is x, looked at from the last byte: names that are small numbers differ there.
// stays: a loop and no `==`, which begins with the first byte: no plainer, for the order of the look would have to be said some other way.
pub fn same_row(col: &[u8], i: usize, x: &[u8; 32]) -> bool
    requires { 32 * i + 32 ≤ length col.now }
    ensures { result ≡ eq_l (row_at col.now i) x.now }
{
    let base = 32 * i;
    for j in (0..32).rev() {
        if col[base + j] != x[j] {
            return false;
        }
    }
    true
}

// Row i.
pub fn get_row(col: &[u8], i: usize) -> [u8; 32]
    requires { 32 * i + 32 ≤ length col.now }
    ensures { result ≡ row_at col.now i }
{
    let base = 32 * i;
    <[u8; 32]>::try_from(&col[base..base + 32]).unwrap()
}

// Writes x to row i.
pub fn put_row(col: &mut [u8], i: usize, x: &[u8; 32])
    requires { 32 * i + 32 ≤ length col.old }
    ensures { col.new ≡ laid_at (32 * i) x.now col.old }
{
    let base = 32 * i;
    // A `for`: read and written by `copy_from_slice`, a row took five times the instructions.
    for k in 0..32 {
        col[base + k] = x[k];
    }
}

// Copies row `from` to row `to`; the two may be one.
pub fn copy_row(col: &mut [u8], from: usize, to: usize)
    requires { (32 * from + 32 ≤ length col.old) × (32 * to + 32 ≤ length col.old) }
    ensures { col.new ≡ laid_at (32 * to) (row_at col.old from) col.old }
{
    let x = get_row(col, from);
    put_row(col, to, &x);
}

// The index of the first of n rows that is x, n if none is.
pub fn find_row(col: &[u8], n: usize, x: &[u8; 32]) -> usize
    requires { 32 * n ≤ length col.now }
    ensures { result ≡ index_of x.now (rows_of n col.now) }
{
    for i in 0..n {
        if same_row(col, i, x) {
            return i;
        }
    }
    n
}
