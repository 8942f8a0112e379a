// The limits of a fill that are plain numbers, each a test of its own: the sizes asked for, the rows lent, the set's room, the slot numbers
// left.
#![tactic(auto)]

ghost use Rattle.std.specs.Prelude.{◌≡◌, ◌-◌, ◌≤◌, not, eqb, ltb, length, get_or, count_by};
ghost use Rattle.limits.specs.Limits.{rows_in, key_rows, too_large, many_skips, used_up};

// How many skip rows are lent: a row has a name of 32 bytes, a verdict and a cost.
pub fn rows_said(names: &[u8], verdicts: &[u8], costs: &[u64]) -> usize
    ensures { result ≡ rows_in (length names.now) (length verdicts.now) (length costs.now) }
{
    (names.len() / 32).min(verdicts.len()).min(costs.len())
}

// How many rows the lent key list has: a row has a created_lt and a hash of 32 bytes.
pub fn key_rows(lts: &[u64], hashes: &[u8]) -> usize
    ensures { result ≡ key_rows (length lts.now) (length hashes.now) }
{
    lts.len().min(hashes.len() / 32)
}

// Whether more slots are asked for than the group may have, or the height is above 16.
pub fn too_large(asked: u64, height: u64, most: u64) -> bool
    ensures { result ≡ too_large asked height most }
{
    asked > most || height > 16
}

// Whether the key list has fewer rows than the buffer has internals.
pub fn few_keys(keys: usize, numbers: &[u64; 528]) -> bool
    ensures { result ≡ ltb keys (get_or numbers.now 4 0) }
{
    (keys as u64) < numbers[4]
}

// How many rows say skip.
fn skips(verdicts: &[u8]) -> usize
    ensures { result ≡ count_by (λ v. not (eqb v 0)) verdicts.now }
{
    verdicts.iter().filter(|&v| *v != 0).count()
}

// Whether there are more than 256 skip rows, or the set with the accounts that they name could be above 512.
pub fn many_skips(rows: usize, verdicts: &[u8], held: usize) -> bool
    requires { (rows ≤ length verdicts.now) × (held ≤ 512) }
    ensures { result ≡ many_skips rows verdicts.now held }
{
    if rows > 256 {
        return true;
    }
    held + skips(&verdicts[..rows]) > 512
}

// Whether the slots to be opened, those asked for less those held, would have numbers above 65,535.
pub fn used_up(asked: usize, slots: usize, last: u64) -> bool
    requires { (asked ≤ 64) × (last ≤ 65535) }
    ensures { result ≡ used_up (asked - slots) last }
{
    let opens = entry::to_open(asked, slots);
    if opens == 0 {
        return false;
    }
    last + opens as u64 > 65535
}
