// Lines of numbers: one space apart, LF at the end. The numbers of a line go to a table, as many to a row as the line has.
#![tactic(auto)]

ghost use Rattle.std.specs.Prelude.{◌≡◌, cond, ◌+◌, ◌*◌, ◌≤◌, ◌<◌, ltb, length};
ghost use Rattle.lines.specs.Steps.{ReadsLine, ReadsLines};

// What ends the j-th number of n: the last ends at LF, every other at a space.
fn stop_of(j: usize, n: usize) -> u8
    requires { j < n }
    ensures { result ≡ cond (ltb (j + 1) n) 32 10 }
{
    if j + 1 < n { b' ' } else { b'\n' }
}

// Reads a line of as many numbers as there are limits, and puts them into the table from `cell` on. Says where the text goes on behind it, if
// the line is in order.
pub fn read_line(
    text: &[u8],
    from: usize,
    limits: &[u64],
    table: &mut [u64],
    cell: usize,
) -> Option<usize>
    requires { (from ≤ length text.now) × (cell + length limits.now ≤ length table.old) }
    ensures { ReadsLine text.now from limits.now cell table.old table.new result }
{
    let mut next = from;
    for (j, &limit) in limits.iter().enumerate() {
        let n = numerals::read_number(text, next, stop_of(j, limits.len()), limit)?;
        table[cell + j] = n.value;
        next = n.next;
    }
    Some(next)
}

// Reads n lines into the first n rows of the table. Says where the text goes on behind them, or else how many stand in order before the first
// that does not.
pub fn read_lines(
    text: &[u8],
    from: usize,
    limits: &[u64],
    n: usize,
    table: &mut [u64],
) -> Result<usize, usize>
    requires { (from ≤ length text.now) × (n * length limits.now ≤ length table.old) }
    ensures { ReadsLines text.now from limits.now n table.old table.new result }
{
    let mut next = from;
    for i in 0..n {
        let Some(behind) = read_line(text, next, limits, table, i * limits.len()) else {
            return Err(i);
        };
        next = behind;
    }
    Ok(next)
}
