// Answers many sheets, which stand one behind the other on standard input, each behind a line `BYTES NAME`: all of examples/ (`tools/examples
// --write` lays them so). The line is written again in front of the answer. An input of more than 65,535 bytes is not answered, and one that
// does not go on with such a line, or has fewer bytes than it says, is answered up to there; both are said.
#![tactic(auto)]

ghost use Rattle.std.specs.Prelude.{◌≤◌, length};

use std::io;
use std::io::Stdout;

mod frame;

// Writes the line in front of a sheet, and the sheet's answer.
fn one(stdout: Stdout, head: &[u8], sheet: &[u8], out: &mut [u8]) -> io::Result<()>
    requires { 42030 ≤ length out.old }
{
    let size = sheets::answer(sheet, out);
    stdout.write_all(head)?;
    stdout.write_all(&out[..size])
}

// Answers every sheet.
fn all(stdout: Stdout, text: &[u8], out: &mut [u8]) -> io::Result<()>
    requires { 42030 ≤ length out.old }
{
    let mut at: usize = 0;
    // stays: no plainer as a `for`: each turn goes on where the sheet before it ends
    while at < text.len() {
        let Some(f) = frame::next(text, at) else {
            return stdout.write_all(b"no sheet here\n");
        };
        one(stdout, &text[at..f.from], &text[f.from..f.to], out)?;
        at = f.to;
    }
    Ok(())
}

fn main(rt: HostRuntime) -> io::Result<()> {
    let mut text = [0u8; 65536];
    let n = reading::full(&mut rt.stdin(), &mut text)?;
    if 65535 < n {
        return rt.stdout().write_all(b"too many sheets\n");
    }
    let mut out = [0u8; 65536];
    all(rt.stdout(), &text[..n], &mut out)
}
