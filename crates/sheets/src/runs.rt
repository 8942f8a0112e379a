// The fills of a sheet, one behind the other on one group and one skipped set. Each is told of in two lines.
ghost use Rattle.std.specs.Prelude.{◌+◌, ◌*◌, ◌≤◌, length};
ghost use Rattle.sheet_rows.specs.Answer.{filled, fills};
ghost use Rattle.sheet_rows.specs.Asking.{args_of};
ghost use Rattle.sheet_adds.specs.Steps.{meant_by, GoodState, Tells};
ghost use Rattle.sheet_fills.specs.Steps.{GoodRows, skips_in};

use fill_answer::Asked;
use sheet_adds::{Reached, State};
use sheet_fills::skips::Rows;

// One fill with its lines.
fn step(s: State, rows: Rows, asked: Asked, number: u64, out: &mut [u8], at: usize) -> Reached
    requires { GoodState s × GoodRows rows × (at + 247 ≤ length out.old) }
    ensures { Tells (filled (args_of (skips_in rows) asked) number (meant_by s)) 247 at out.old out.new result }
{
    let f = sheet_fills::fill(s.buffer, s.group, s.skipped, rows, asked);
    let end = sheet_fills::put(f, number, out, at);
    Reached {
        state: State {
            buffer: f.buffer,
            group: f.group,
            skipped: f.skipped,
        },
        at: end,
    }
}

// Does the fills of the first n rows.
pub fn all(s: State, rows: Rows, cells: &[u64], n: usize, out: &mut [u8], at: usize) -> Reached
    requires { GoodState s × GoodRows rows × (4 * n ≤ length cells.now) × (length cells.now ≤ 256) × (at + 247 * n ≤ length out.old) }
    ensures { Tells (fills (skips_in rows) cells.now n (meant_by s)) (247 * n) at out.old out.new result }
{
    let mut done = Reached { state: s, at };
    for i in 0..n {
        let asked = sheet_rows::asked_of(cells, i);
        done = step(done.state, rows, asked, i as u64 + 1, out, done.at);
    }
    done
}
