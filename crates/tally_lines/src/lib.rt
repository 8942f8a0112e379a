// The lines of a sheet's answer that hold many numbers: that of a fill, and that of what is left. Each is put behind the first `at` bytes of
// what is lent, where there is room for the longest such line, and the answer is where it ends.
#![tactic(auto)]

ghost use Rattle.std.specs.Prelude.{◌+◌, ◌≤◌, length};
ghost use Rattle.display.specs.Pieces.{Puts};
ghost use Rattle.answers.specs.Answer.{fill_line, left_line};

// `fill N code C collected N ops N dropped N`
pub fn put_fill(
    out: &mut [u8],
    at: usize,
    number: u64,
    code: u64,
    collected: u64,
    ops: u64,
    dropped: u64,
) -> usize
    requires { at + 137 ≤ length out.old }
    ensures { Puts (fill_line number code collected ops dropped) 137 at out.old out.new result }
{
    let one = display::put(out, at, b"fill ", number);
    let two = display::put(out, one, b" code ", code);
    let three = display::put(out, two, b" collected ", collected);
    let four = display::put(out, three, b" ops ", ops);
    let five = display::put(out, four, b" dropped ", dropped);
    answers::end_line(out, five)
}

// `left int=N ext=N accounts=N min=N`
pub fn put_left(out: &mut [u8], at: usize, ints: u64, exts: u64, accounts: u64, least: u64) -> usize
    requires { at + 110 ≤ length out.old }
    ensures { Puts (left_line ints exts accounts least) 110 at out.old out.new result }
{
    let one = display::put(out, at, b"left int=", ints);
    let two = display::put(out, one, b" ext=", exts);
    let three = display::put(out, two, b" accounts=", accounts);
    let four = display::put(out, three, b" min=", least);
    answers::end_line(out, four)
}
