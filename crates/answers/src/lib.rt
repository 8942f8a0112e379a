// The short lines that answer a sheet, and the end of each. Each is put behind the first `at` bytes of what is lent, where there is room for the longest such line, and
// the answer is where it ends.
#![tactic(auto)]

ghost use Rattle.std.specs.Prelude.{[], ◌∷◌, ◌+◌, ◌≤◌, length};
ghost use Rattle.display.specs.Pieces.{Puts};
ghost use Rattle.answers.specs.Answer.{broken_line, add_line, refusal};

// LF.
pub fn end_line(out: &mut [u8], at: usize) -> usize
    requires { at + 1 ≤ length out.old }
    ensures { Puts (10 ∷ []) 1 at out.old out.new result }
{
    display::lay(out, at, b"\n", 1);
    at + 1
}

// `sheet line N`
pub fn put_broken(out: &mut [u8], at: usize, line: u64) -> usize
    requires { at + 32 ≤ length out.old }
    ensures { Puts (broken_line line) 32 at out.old out.new result }
{
    let one = display::put(out, at, b"sheet line ", line);
    end_line(out, one)
}

// `add N code C`
pub fn put_add(out: &mut [u8], at: usize, number: u64, code: u64) -> usize
    requires { at + 51 ≤ length out.old }
    ensures { Puts (add_line number code) 51 at out.old out.new result }
{
    let one = display::put(out, at, b"add ", number);
    let two = display::put(out, one, b" code ", code);
    end_line(out, two)
}

// The line of a refused message, and nothing of one that was taken.
pub fn put_refusal(out: &mut [u8], at: usize, number: u64, code: u64) -> usize
    requires { at + 51 ≤ length out.old }
    ensures { Puts (refusal number code) 51 at out.old out.new result }
{
    if code == 0 {
        return at;
    }
    put_add(out, at, number, code)
}
