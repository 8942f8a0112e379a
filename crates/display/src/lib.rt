// The line that a group is shown by: "int=N, ext=N, accounts=N, slots=N", the numbers decimal with no zero in front.
#![tactic(auto)]

ghost use Rattle.std.specs.Prelude.{◌≡◌, ◌++◌, ◌+◌, ◌≤◌, length, take};
ghost use Rattle.columns.specs.Laid.{laid_at};
ghost use Rattle.words.specs.Digits.{decimal};
ghost use Rattle.display.specs.Line.{line_of, written};
ghost use Rattle.display.specs.Pieces.{Puts};

// Lays the first n bytes of a piece over `col` from `at` on.
pub fn lay(col: &mut [u8], at: usize, piece: &[u8], n: usize)
    requires { (at + n ≤ length col.old) × (n ≤ length piece.now) }
    ensures { col.new ≡ laid_at at (take n piece.now) col.old }
{
    col[at..at + n].copy_from_slice(&piece[..n]);
}

// Puts a word and the digits of n behind the first `at` bytes of a line, and says where the line then ends.
pub fn put(line: &mut [u8], at: usize, word: &[u8], n: u64) -> usize
    requires { at + length word.now + 20 ≤ length line.old }
    ensures { Puts (word.now ++ decimal n) (length word.now + 20) at line.old line.new result }
{
    let mut digits = [0u8; 20];
    let many = words::decimal::write(n, &mut digits);
    let next = at + word.len();
    lay(line, at, word, word.len());
    lay(line, next, &digits, many);
    next + many
}

// Writes the line to the start of `line`, where there is room for the longest one, and says how long it is.
fn build(line: &mut [u8], ints: u64, exts: u64, accounts: u64, slots: u64) -> usize
    requires { 109 ≤ length line.old }
    ensures { Puts (line_of ints exts accounts slots) 109 0 line.old line.new result }
{
    let one = put(line, 0, b"int=", ints);
    let two = put(line, one, b", ext=", exts);
    let three = put(line, two, b", accounts=", accounts);
    put(line, three, b", slots=", slots)
}

// Writes the line to the start of `out` if it fits there, and leaves `out` as it is if it does not; says how long the line is either way.
pub fn write_line(ints: u64, exts: u64, accounts: u64, slots: u64, out: &mut [u8]) -> usize
    ensures { (result ≡ length (line_of ints exts accounts slots)) × (out.new ≡ written (line_of ints exts accounts slots) out.old) }
{
    let mut line = [0u8; 128];
    let size = build(&mut line, ints, exts, accounts, slots);
    if size <= out.len() {
        lay(out, 0, &line, size);
    }
    size
}
