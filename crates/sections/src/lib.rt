// A section of a sheet: its count, and so many lines behind it. The three sections differ in how many lines they may have, and in what the
// numbers of a line may be.
#![tactic(auto)]

ghost use Rattle.std.specs.Prelude.{◌*◌, ◌≤◌, ◌<◌, length};
ghost use Rattle.sheet_rules.specs.Sheet.{skip_limits, message_limits, fill_limits};
ghost use Rattle.sections.specs.Steps.{ReadsSection};

// A section that was read: how many rows it has, the number of the line behind it, and where the text goes on.
#[derive(Clone, Copy)]
pub struct Section {
    pub rows: usize,
    pub line: usize,
    pub next: usize,
}

// Why a sheet can't be read: the number of its first line that is broken, missing or extra.
#[derive(Clone, Copy)]
pub struct Broken {
    pub line: usize,
}

// Reads a section that starts at a line: its count, not above its limit, and its rows.
fn read_section(
    text: &[u8],
    from: usize,
    line: usize,
    limit: u64,
    limits: &[u64],
    table: &mut [u64],
) -> Result<Section, Broken>
    requires { (from ≤ length text.now) × (0 < line) × (line < 65536) × (limit < 65536) × (limit * length limits.now ≤ length table.old) }
    ensures { ReadsSection text.now from line limit limits.now table.old table.new result }
{
    let Some(count) = numerals::read_number(text, from, b'\n', limit) else {
        return Err(Broken { line });
    };
    let rows = count.value as usize;
    let first = line + 1;
    match lines::read_lines(text, count.next, limits, rows, table) {
        Ok(next) => Ok(Section {
            rows,
            line: first + rows,
            next,
        }),
        Err(done) => Err(Broken { line: first + done }),
    }
}

// Reads the skip rows, with which a sheet begins: account, verdict, cost.
pub fn read_skips(text: &[u8], table: &mut [u64]) -> Result<Section, Broken>
    requires { 192 ≤ length table.old }
    ensures { ReadsSection text.now 0 1 64 skip_limits table.old table.new result }
{
    read_section(text, 0, 1, 64, &[65535, 1, u64::MAX], table)
}

// Reads the messages: kind, time, account.
pub fn read_messages(
    text: &[u8],
    from: usize,
    line: usize,
    table: &mut [u64],
) -> Result<Section, Broken>
    requires { (from ≤ length text.now) × (0 < line) × (line < 65536) × (1536 ≤ length table.old) }
    ensures { ReadsSection text.now from line 512 message_limits table.old table.new result }
{
    read_section(text, from, line, 512, &[1, u64::MAX, 65535], table)
}

// Reads the fills: slots, height, filter, threshold.
pub fn read_fills(
    text: &[u8],
    from: usize,
    line: usize,
    table: &mut [u64],
) -> Result<Section, Broken>
    requires { (from ≤ length text.now) × (0 < line) × (line < 65536) × (256 ≤ length table.old) }
    ensures { ReadsSection text.now from line 64 fill_limits table.old table.new result }
{
    read_section(
        text,
        from,
        line,
        64,
        &[u64::MAX, u64::MAX, 1, u64::MAX],
        table,
    )
}
