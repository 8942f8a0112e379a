// Reading all at once: until a row is full or the input ends.
#![tactic(auto)]

ghost use Rattle.std.specs.Prelude.{ℕ, ◌<◌, ◌≤◌, length, take, IfOk, OnErr};
ghost use Rattle.std.specs.Io.{ReadsAtMost};
ghost use Rattle.std.specs.Io.KnownBytes.{Consumes, IsAtEnd};

use std::io;
use std::io::Read;

// Fills the row from its start, and says how many bytes were read: as many as it has room for, or as many as there are. After a read that
// fails, with that read's error, what was read before stands at the row's start, and nothing else was taken off the input.
pub fn full<R: Read>(from: &mut R, row: &mut [u8]) -> io::Result<usize>
    ensures within { ReadsAtMost result row.new }
    ensures bytes { IfOk result (λ n. Consumes (R.remaining from.old) (R.remaining from.new) (take n row.new)) }
    ensures failed { OnErr result ((n : ℕ) × (n ≤ length row.new) × Consumes (R.remaining from.old) (R.remaining from.new) (take n row.new)) }
    ensures ended { IfOk result (λ n. n < length row.new → IsAtEnd (R.remaining from.new)) }
{
    let mut done: usize = 0;
    // stays: no plainer as a `for`: a turn goes on by as many bytes as its read gave
    while done < row.len() {
        let n = from.read(&mut row[done..])?;
        if n == 0 {
            return Ok(done);
        }
        done += n;
    }
    Ok(done)
}
