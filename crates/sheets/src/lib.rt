// A sheet answered: it is read, its messages are added, its fills are done, and the lines of its answer are put into what is lent.
#![tactic(auto)]

ghost use Rattle.std.specs.Prelude.{◌+◌, ◌≤◌, length};
ghost use Rattle.display.specs.Pieces.{Puts};
ghost use Rattle.lintelsong.specs.Closed.{cols_of, GoodBuffer};
ghost use Rattle.queues.specs.Meant.{meant};
ghost use Rattle.sheet_rules.specs.Sheet.{read};
ghost use Rattle.text.specs.Steps.{laid_out};
ghost use Rattle.sheet_rows.specs.Answer.{left_of, play_lines, answer_to};
ghost use Rattle.sheets.specs.Steps.{Tabled};

pub mod runs;

use lintelsong::Buffer;
use text::sheet::Parsed;

// The last line: what the buffer holds, and its minimum.
fn put_left(b: Buffer, out: &mut [u8], at: usize) -> usize
    requires { GoodBuffer b × (at + 110 ≤ length out.old) }
    ensures { Puts (left_of (meant (cols_of b))) 110 at out.old out.new result }
{
    let held = b.counts();
    let least = b.min_ext_chain_time();
    tally_lines::put_left(out, at, held.ints, held.exts, held.accounts, least)
}

// The answer to a sheet without a broken line: 51 bytes for a message at the most, 247 for a fill, 110 for the last line.
fn play(p: Parsed, out: &mut [u8]) -> usize
    requires { Tabled p × (42030 ≤ length out.old) }
    ensures { Puts (play_lines p) 42030 0 out.old out.new result }
{
    let start = sheet_adds::fresh();
    let added = sheet_adds::all(start, &p.message, p.messages, out, 0);
    let rows = sheet_fills::skips::rows_of(&p.skip, p.skips);
    let filled = runs::all(added.state, rows, &p.fill, p.fills, out, added.at);
    put_left(filled.state.buffer, out, filled.at)
}

// Puts the answer to a sheet to the start of what is lent, and says how long it is. There is room for the longest answer.
pub fn answer(text: &[u8], out: &mut [u8]) -> usize
    requires { 42030 ≤ length out.old }
    ensures { Puts (answer_to (laid_out (read text.now))) 42030 0 out.old out.new result }
{
    match text::sheet::parse(text) {
        Ok(p) => play(p, out),
        Err(broken) => answers::put_broken(out, 0, broken.line as u64),
    }
}
