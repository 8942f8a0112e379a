// A fill of a sheet: its skip rows laid out, the fill done, and its two lines.
#![tactic(auto)]

ghost use Rattle.std.specs.Prelude.{◌+◌, ◌≤◌, length};
ghost use Rattle.rules.specs.Calls.{fill_group};
ghost use Rattle.message.specs.Answers.{number as number_of};
ghost use Rattle.message.specs.Real.{Real};
ghost use Rattle.queues.specs.Meant.{meant as store_meant};
ghost use Rattle.slots.specs.Meant.{meant as target_meant};
ghost use Rattle.display.specs.Pieces.{Puts};
ghost use Rattle.lintelsong.specs.Closed.{cols_of, table_of, accounts_in, GoodBuffer, GoodGroup, GoodSet};
ghost use Rattle.sheet_rows.specs.Answer.{no_keys, fill_lines};
ghost use Rattle.sheet_rows.specs.Asking.{args_of};
ghost use Rattle.sheet_fills.specs.Steps.{GoodRows, skips_in, FillsBy};

pub mod skips;

use crate::skips::Rows;
use fill_answer::Asked;
use lintelsong::fill_calls::FillAnswer;
use lintelsong::{Buffer, Group, Skipped};

// One fill. Nothing is told of the key list, so each fill has its own.
pub fn fill(b: Buffer, g: Group, s: Skipped, rows: Rows, asked: Asked) -> FillAnswer
    requires { GoodBuffer b × GoodGroup g × GoodSet s × GoodRows rows }
    ensures { FillsBy (fill_group Real (args_of (skips_in rows) asked) no_keys (store_meant (cols_of b)) (target_meant (table_of g)) (accounts_in s)) result }
{
    let size = 32 * rows.count;
    let mut lts = [0u64; 256];
    let mut hashes = [0u8; 8192];
    b.fill(
        g,
        s,
        asked,
        &rows.names[..size],
        &rows.verdicts,
        &rows.costs,
        &mut lts,
        &mut hashes,
    )
}

// The two lines of a fill: its numbers, and the group's Display line.
pub fn put(f: FillAnswer, number: u64, out: &mut [u8], at: usize) -> usize
    requires { GoodGroup f.group × (at + 247 ≤ length out.old) }
    ensures { Puts (fill_lines number (number_of f.code) f.collected f.operations f.dropped (target_meant (table_of f.group))) 247 at out.old out.new result }
{
    let code = u64::from(message::number_of(f.code));
    let one = tally_lines::put_fill(
        out,
        at,
        number,
        code,
        f.collected as u64,
        f.operations,
        f.dropped as u64,
    );
    let size = f.group.display(&mut out[one..]);
    answers::end_line(out, one + size)
}
