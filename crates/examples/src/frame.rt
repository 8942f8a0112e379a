// Where the next sheet lies: behind a line `BYTES NAME`, as many bytes long.
ghost use Rattle.std.specs.Prelude.{◌≤◌, ◌<◌, IfSome, length};

use words::{cut, decimal};

// Where a sheet starts and ends.
#[derive(Clone, Copy)]
pub struct Frame {
    pub from: usize,
    pub to: usize,
}

// The sheet whose line starts at `at`, if there is such a line and as many bytes behind it as it says.
pub fn next(text: &[u8], at: usize) -> Option<Frame>
    requires { at < length text.now }
    ensures { IfSome result (λ f. (at < f.from) × (f.from ≤ f.to) × (f.to ≤ length text.now)) }
{
    let space = cut::until(text, at, b' ');
    let end = cut::until(text, space, b'\n');
    if text.len() <= end {
        return None;
    }
    let from = end + 1;
    let size = decimal::read(&text[at..space])?;
    let rest = (text.len() - from) as u64;
    if rest < size {
        return None;
    }
    Some(Frame {
        from,
        to: from + size as usize,
    })
}
