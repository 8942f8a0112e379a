// Answers the sheet on standard input. One byte more than a sheet may have is read, which tells that it is too long; the rest is left.
#![tactic(auto)]

ghost use Rattle.std.specs.Prelude.{◌≡◌, length};

use std::io;

// Room for the longest sheet and one byte.
fn room() -> [u8; 16385]
    ensures { 16385 ≡ length result }
{
    [0u8; 16385]
}

fn main(rt: HostRuntime) -> io::Result<()> {
    let mut text = room();
    let n = reading::full(&mut rt.stdin(), &mut text)?;
    let mut out = [0u8; 65536];
    let size = sheets::answer(&text[..n], &mut out);
    rt.stdout().write_all(&out[..size])
}
