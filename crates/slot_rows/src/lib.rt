// The table of slot records. A visit takes one record by value and hands it back; here it is written back into its place of a lent row.
#![tactic(auto)]

ghost use Rattle.std.specs.Prelude.{◌≡◌, ◌<◌, length, set};
ghost use Rattle.slot_rows.specs.Rows.{ints_of, exts_of};

use moves::Slot;

// One slot by value: what stands in its place, as the visit left it.
pub fn written(stood: Slot, left: Slot) -> Slot
    ensures { result ≡ left }
{
    Slot { ..left }
}

// The thin routine: the record at a place of a lent row is read, and written back as the visit left it.
pub fn write(slots: &mut [Slot], at: usize, record: Slot)
    requires { at < length slots.old }
    ensures { slots.new ≡ set slots.old at «record» }
{
    slots[at] = written(slots[at], record);
}

// The lent table: its row is lent on to `write`.
pub fn write_table(table: &mut [Slot; 64], at: usize, record: Slot)
    requires { at < 64 }
    ensures { table.new ≡ set table.old at «record» }
{
    write(table, at, record);
}

// The table of two columns of counts.
pub fn gather(ints: &[u8; 64], exts: &[u8; 64]) -> [Slot; 64]
    ensures { (ints_of result ≡ ints.now) × (exts_of result ≡ exts.now) }
{
    let mut table = [Slot { ints: 0, exts: 0 }; 64];
    for (i, record) in table.iter_mut().enumerate() {
        *record = Slot {
            ints: ints[i],
            exts: exts[i],
        };
    }
    table
}

// The columns of a table, written over two columns of counts.
pub fn spread(table: &[Slot; 64], ints: &mut [u8; 64], exts: &mut [u8; 64])
    ensures { (ints.new ≡ ints_of table.now) × (exts.new ≡ exts_of table.now) }
{
    for (i, record) in table.iter().enumerate() {
        ints[i] = record.ints;
        exts[i] = record.exts;
    }
}
