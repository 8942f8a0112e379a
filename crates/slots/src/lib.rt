// A group on columns. Its tables stand in specs/; what is read off them by more than a number is here.
#![tactic(auto)]

ghost use Rattle.std.specs.Prelude.{◌≡◌, ◌≤◌, length, get_or};
ghost use Rattle.queues.specs.Look.{row_of};
ghost use Rattle.slots.specs.Join.{next_by};

// The number of the first new slot: behind the last, or 0 if there is none.
pub fn next_number(numbers: &[u64; 16]) -> usize
    requires { get_or numbers.now 6 0 ≤ 65535 }
    ensures { result ≡ next_by numbers.now }
{
    if numbers[7] == 0 {
        return 0;
    }
    numbers[6] as usize + 1
}

// The row of the k-th of the first n accounts whose home is the slot at a position; n if it has no such account.
pub fn home_of(home: &[u8], n: usize, position: usize, k: usize) -> usize
    requires { n ≤ length home.now }
    ensures { result ≡ row_of home.now n position k }
{
    let mut behind = k;
    for i in 0..n {
        if usize::from(home[i]) == position {
            if behind == 0 {
                return i;
            }
            behind -= 1;
        }
    }
    n
}
