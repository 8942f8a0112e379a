// The numbers of what a removal leaves: messages, accounts and internals counted, and the index of the accounts that stay.
#![tactic(auto)]

ghost use Rattle.std.specs.Prelude.{◌≡◌, ◌*◌, ◌-◌, ◌≤◌, length};
ghost use Rattle.index.specs.Names.{indexed_by};
ghost use Rattle.queues.specs.Compact.{left_numbers};

// a without b, 0 if b is more.
fn less(a: u64, b: u64) -> u64
    ensures { result ≡ a - b }
{
    a.saturating_sub(b)
}

// The numbers with r messages and b accounts left, and the index of these; all that went were internals.
pub fn count_out(r: usize, b: usize, accounts: &[u8; 16384], numbers: &mut [u64; 528])
    requires { (32 * b ≤ length accounts.now) × (b ≤ 256) }
    ensures { numbers.new ≡ indexed_by b accounts.now (left_numbers r b numbers.old) }
{
    let went = less(numbers[2], r as u64);
    let ints = less(numbers[4], went);
    numbers[2] = r as u64;
    numbers[3] = b as u64;
    numbers[4] = ints;
    index::rebuild(accounts, b, numbers);
}
