// Standard input, line by line. Bytes are read into a chunk that is lent, and a line is copied out of it, whatever the input's length.
ghost use Rattle.std.specs.Prelude.{◌≤◌, length, IfSome};

use std::io::{Read, Stdin};

// Where to read, and which bytes of the chunk are read and not yet handed on: from `at` to `held`.
// stays: the rule of fixed memory: the chunk is lent beside the reader, as a line and its length are.
#[derive(Clone, Copy)]
pub struct Reader {
    pub from: Stdin,
    pub at: usize,
    pub held: usize,
}

// Nothing read yet.
pub fn fresh(from: Stdin) -> Reader
    ensures { result.held ≤ 0 }
{
    Reader {
        from,
        at: 0,
        held: 0,
    }
}

// Reads on if every byte was handed on. Afterwards there is a byte, or the input has ended; a read that fails counts as its end.
fn fill(chunk: &mut [u8], reader: &mut Reader)
    requires { reader.old.held ≤ length chunk.old }
    ensures { reader.new.held ≤ length chunk.new }
{
    if reader.at < reader.held {
        return;
    }
    reader.at = 0;
    reader.held = reader.from.read(chunk).unwrap_or(0);
}

// The next byte, if there is one.
fn byte(chunk: &mut [u8], reader: &mut Reader) -> Option<u8>
    requires { reader.old.held ≤ length chunk.old }
    ensures { reader.new.held ≤ length chunk.new }
{
    fill(chunk, reader);
    let at = reader.at;
    if reader.held <= at {
        return None;
    }
    reader.at = at + 1;
    Some(chunk[at])
}

// The next line, without its LF, and how many bytes it has. A last line without LF is a line too; one that fills all its room may go on.
pub fn next(chunk: &mut [u8], line: &mut [u8], reader: &mut Reader) -> Option<usize>
    requires { reader.old.held ≤ length chunk.old }
    ensures held { reader.new.held ≤ length chunk.new }
    ensures within { IfSome result (λ n. n ≤ length line.new) }
{
    for (n, place) in line.iter_mut().enumerate() {
        match byte(chunk, reader) {
            None => return (0 < n).then_some(n),
            Some(b'\n') => return Some(n),
            Some(b) => *place = b,
        }
    }
    Some(line.len())
}
