// The numbers of a join: slots, accounts, messages, internals and externals of both groups together, and the last slot number.
#![tactic(auto)]

ghost use Rattle.std.specs.Prelude.{◌≡◌};
ghost use Rattle.slots.specs.Join.{joined_numbers_by};
ghost use Rattle.number_joins.specs.Sums.{Summable};

// The numbers of both groups together; `first` is the number of the first new slot.
pub fn join_numbers(first: usize, numbers: &mut [u64; 16], numbers2: &[u64; 16])
    requires { Summable first numbers.old numbers2.now }
    ensures { numbers.new ≡ joined_numbers_by first numbers.old numbers2.now }
{
    let n = numbers2[1];
    let slots = numbers[1] + n;
    let accounts = numbers[2] + numbers2[2];
    let messages = numbers[3] + numbers2[3];
    let ints = numbers[4] + numbers2[4];
    let exts = numbers[5] + numbers2[5];
    numbers[1] = slots;
    numbers[2] = accounts;
    numbers[3] = messages;
    numbers[4] = ints;
    numbers[5] = exts;
    if n != 0 {
        numbers[6] = first as u64 + n - 1;
        numbers[7] = 1;
    }
}
