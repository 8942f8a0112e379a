// What is read off the queues: how many messages an account has, and in which row the next one stands.
#![tactic(auto)]

ghost use Rattle.std.specs.Prelude.{◌≡◌, ◌*◌, ◌≤◌, length};
ghost use Rattle.queues.specs.Look.{seat_of, owned_by, row_of};

// How many of the first n messages are those of the account x, one of the first a.
pub fn queued(owner: &[u16], n: usize, accounts: &[u8], a: usize, x: &[u8; 32]) -> usize
    requires { (n ≤ length owner.now) × (32 * a ≤ length accounts.now) × (a ≤ 256) }
    ensures { result ≡ owned_by owner.now n (seat_of accounts.now a x.now) }
{
    let seat = rows::find_row(accounts, a, x);
    packing::count_owned(owner, n, seat as u16)
}

// The row of the k-th message of place p among the first n; n if it has no such message.
pub fn row_of(owner: &[u16], n: usize, p: u16, k: usize) -> usize
    requires { n ≤ length owner.now }
    ensures { result ≡ row_of owner.now n p k }
{
    let mut behind = k;
    for i in 0..n {
        if owner[i] == p {
            if behind == 0 {
                return i;
            }
            behind -= 1;
        }
    }
    n
}
