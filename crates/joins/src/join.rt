// What a join decides and counts: whether it is taken, the counts of slots.
ghost use Rattle.std.specs.Prelude.{◌≡◌, ℕ, ◌+◌, ◌*◌, ◌<◌, ◌≤◌, length, get_or};
ghost use Rattle.slots.specs.Join.{shared_t, join_code_by};
ghost use Rattle.joins.specs.Laying.{Rooms, Countable};

use message::{Code, Refusal};

// Whether one of the first n accounts of the right is one of the first m of the left. It looks from the right's last account down: where the
// one that entered last is shared, one search is enough.
fn shared(left: &[u8], m: usize, right: &[u8], n: usize) -> bool
    requires { (32 * m ≤ length left.now) × (32 * n ≤ length right.now) }
    ensures { result ≡ shared_t m left.now n right.now }
{
    for k in (0..n).rev() {
        let x = rows::get_row(right, k);
        if rows::find_row(left, m, &x) < m {
            return true;
        }
    }
    false
}

// Whether a join is taken, and why not: 14, 15, 12, in this order.
pub fn decide(
    left: &[u64; 16],
    accounts: &[u8; 32768],
    right: &[u64; 16],
    others: &[u8; 32768],
) -> Code
    requires rooms { Rooms left.now }
    requires rooms_2 { Rooms right.now }
    ensures { result ≡ join_code_by left.now accounts.now right.now others.now }
{
    let n = right[1];
    let many = left[0] < left[1] + n;
    let twice = shared(accounts, left[2] as usize, others, right[2] as usize);
    let used = 65535 <= slots::next_number(left) + n as usize;
    if many {
        return Err(Refusal::ManySlots);
    }
    if twice {
        return Err(Refusal::SharedAccount);
    }
    if used {
        return Err(Refusal::NumbersUsedUp);
    }
    Ok(())
}

// The counts of n slots: internals and externals together.
pub fn counts_of(n: usize, ints: &[u8; 64], exts: &[u8; 64]) -> [u8; 64]
    requires { Countable n ints.now exts.now }
    ensures { (length result ≡ 64) × ((i : ℕ) → i < n → get_or result i 0 ≡ get_or ints.now i 0 + get_or exts.now i 0) }
{
    let mut counts = [0u8; 64];
    for i in 0..n {
        counts[i] = ints[i] + exts[i];
    }
    counts
}
