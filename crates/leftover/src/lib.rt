// What remains in the buffer at the end of a fill, counted: the internals, and the numbers.
#![tactic(auto)]

ghost use Rattle.std.specs.Prelude.{◌≡◌, not, ◌≤◌, eqb};
ghost use Rattle.columns.specs.Lists.{count_i};
ghost use Rattle.settle.specs.Ends.{left_counts};

// How many of the first n rows are internals.
pub fn count_internals(kind: &[u8; 2048], n: usize) -> usize
    requires { n ≤ 2048 }
    ensures { result ≡ count_i (λ i k. not (eqb k 1)) n 0 kind.now }
{
    // A `for` and no `filter` and `count`, as in `packing::count_owned`.
    let mut count: usize = 0;
    for i in 0..n {
        if kind[i] != 1 {
            count += 1;
        }
    }
    count
}

// The numbers of a buffer that holds r messages, `ints` of them internals, of b accounts. Without an account the minimum is cleared.
pub fn count_left(r: usize, b: usize, ints: usize, numbers: &mut [u64; 528])
    requires { ints ≤ r }
    ensures { numbers.new ≡ left_counts r b ints numbers.old }
{
    numbers[2] = r as u64;
    numbers[3] = b as u64;
    numbers[4] = ints as u64;
    numbers[5] = (r - ints) as u64;
    if b == 0 {
        numbers[6] = 0;
        numbers[7] = 0;
    }
}
