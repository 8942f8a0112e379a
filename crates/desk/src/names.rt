// Accounts that numbers name, laid out 32 bytes each.
ghost use Rattle.std.specs.Prelude.{◌≡◌, ◌*◌, ◌≤◌, length};

// Writes the names of numbers.
fn write_names(numbers: &[u64], names: &mut [u8])
    requires { 32 * length numbers.now ≤ length names.old }
{
    for (i, &number) in numbers.iter().enumerate() {
        rows::put_row(names, i, &words::name::name_of(number));
    }
}

// Room for the names of as many numbers as a line holds.
// stays: the rule of fixed memory: there is no heap to lay the names out on.
pub fn room() -> [u8; 1048576]
    ensures { 1048576 ≡ length result }
{
    [0u8; 1048576]
}

// Writes the names of the first n numbers, up to 32,768, and says how many bytes they are; none where there is no room for all.
pub fn lay_out(numbers: &[u64], n: usize, names: &mut [u8]) -> usize
    ensures { result ≤ length names.new }
{
    if 32768 < n || names.len() < 32 * n {
        return 0;
    }
    let Some(numbers) = numbers.get(..n) else {
        return 0;
    };
    write_names(numbers, names);
    32 * n
}
