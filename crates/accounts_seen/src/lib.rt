// The accounts of a group as they are seen, on lent columns: whether one is there, the one in a row, those of a slot. Each gives its answer as a
// value; the calls by value and the exports are made of these.
#![tactic(auto)]

ghost use Rattle.std.specs.Prelude.{◌≡◌, ◌≤◌, get_or};
ghost use Rattle.queues.specs.Look.{row_of};
ghost use Rattle.accounts_seen.specs.Accounts.{holds, account_found};

// Whether an account has a list in the group.
pub fn contains_account(accounts: &[u8; 32768], numbers: &[u64; 16], name: [u8; 32]) -> bool
    requires { get_or numbers.now 2 0 ≤ 1024 }
    ensures { result ≡ holds accounts.now numbers.now name }
{
    let held = numbers[2] as usize;
    rows::find_row(accounts, held, &name) < held
}

// The account in row k, which has the k-th list; none past the end.
pub fn account_at(accounts: &[u8; 32768], numbers: &[u64; 16], k: usize) -> Option<[u8; 32]>
    requires { get_or numbers.now 2 0 ≤ 1024 }
    ensures { result ≡ account_found accounts.now numbers.now k }
{
    let listed = numbers[2] as usize;
    if k < listed {
        Some(rows::get_row(accounts, k))
    } else {
        None
    }
}

// The k-th account of the slot at a position; none past either end.
pub fn slot_account_at(
    accounts: &[u8; 32768],
    home: &[u8; 1024],
    numbers: &[u64; 16],
    position: usize,
    k: usize,
) -> Option<[u8; 32]>
    requires { get_or numbers.now 2 0 ≤ 1024 }
    ensures { result ≡ account_found accounts.now numbers.now (row_of home.now (get_or numbers.now 2 0) position k) }
{
    let held = numbers[2] as usize;
    let row = slots::home_of(home, held, position, k);
    account_at(accounts, numbers, row)
}
