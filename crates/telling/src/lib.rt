// What a fill tells beside what it moves: the keys of the internals taken go to the key list, and the accounts of the parties that joined to
// the skipped set.
#![tactic(auto)]

ghost use Rattle.std.specs.Prelude.{◌≡◌, ◌*◌, ◌<◌, length};
ghost use Rattle.columns.specs.Laid.{laid_at};
ghost use Rattle.columns.specs.Rows.{flat};
ghost use Rattle.settle.specs.Copies.{TakesKeys, TakesParties, party_row, accounts_at, Keyed};

// The keys of the internals among the n rows taken go to the front of the key list, in order of collection. Says how many there are.
pub fn keys(
    rows: &[u16; 1024],
    n: usize,
    kind: &[u8; 2048],
    time: &[u64; 2048],
    hash: &[u8; 65536],
    lts: &mut [u64],
    hashes: &mut [u8],
) -> usize
    requires { TakesKeys n rows.now kind.now (length time.now) (length hash.now) (length lts.old) (length hashes.old) }
    ensures { Keyed n rows.now kind.now time.now hash.now lts.old hashes.old lts.new hashes.new result }
{
    let mut w: usize = 0;
    for k in 0..n {
        let row = usize::from(rows[k]);
        let internal = kind[row] != 1;
        if internal {
            lts[w] = time[row];
            let h = rows::get_row(hash, row);
            rows::put_row(hashes, w, &h);
            w += 1;
        }
    }
    w
}

// The account of a party: the one at its place in the order, or the one in the group.
fn account_of(accounts: &[u8; 16384], others: &[u8; 32768], party: usize) -> [u8; 32]
    requires { party < 1280 }
    ensures { result ≡ party_row accounts.now others.now party }
{
    if party < 256 {
        return rows::get_row(accounts, party);
    }
    rows::get_row(others, party - 256)
}

// The accounts of the n parties that joined the skipped set go behind the `at` accounts that it holds.
pub fn join_set(
    joined: &[u16; 1280],
    n: usize,
    accounts: &[u8; 16384],
    others: &[u8; 32768],
    set: &mut [u8; 16384],
    at: usize,
)
    requires { TakesParties n joined.now at }
    ensures { set.new ≡ laid_at (32 * at) (flat (accounts_at n joined.now accounts.now others.now)) set.old }
{
    for k in 0..n {
        let x = account_of(accounts, others, usize::from(joined[k]));
        rows::put_row(set, at + k, &x);
    }
}
