// The sheet: its three sections, and the first line that is broken, missing or extra.
ghost use Rattle.std.specs.Prelude.{◌≡◌};
ghost use Rattle.sheet_rules.specs.Sheet.{read};
ghost use Rattle.text.specs.Steps.{laid_out};

use sections::Broken;

// A sheet that was read. The tables hold the numbers of a line one behind the other, and zeros past the last line.
#[derive(Clone, Copy)]
pub struct Parsed {
    // skip rows: account, verdict, cost
    pub skips: usize,
    pub skip: [u64; 192],
    // messages: kind, time, account
    pub messages: usize,
    pub message: [u64; 1536],
    // fills: slots, height, filter, threshold
    pub fills: usize,
    pub fill: [u64; 256],
}

// Reads a sheet.
pub fn parse(text: &[u8]) -> Result<Parsed, Broken>
    ensures { result ≡ laid_out (read text.now) }
{
    if 16384 < text.len() {
        return Err(Broken { line: 1 });
    }
    let mut skip = [0u64; 192];
    let s = sections::read_skips(text, &mut skip)?;
    let mut message = [0u64; 1536];
    let m = sections::read_messages(text, s.next, s.line, &mut message)?;
    let mut fill = [0u64; 256];
    let f = sections::read_fills(text, m.next, m.line, &mut fill)?;
    if f.next < text.len() {
        return Err(Broken { line: f.line });
    }
    Ok(Parsed {
        skips: s.rows,
        skip,
        messages: m.rows,
        message,
        fills: f.rows,
        fill,
    })
}
