// What is made of a group's counts, on lent columns: whether it is filled, and the Display line. The calls by value and the exports are made of
// these.
#![tactic(auto)]

ghost use Rattle.std.specs.Prelude.{◌≡◌, length};
ghost use Rattle.display.specs.Line.{written};
ghost use Rattle.group_reads.specs.Shown.{line_for};
ghost use Rattle.group_reads.specs.Lent.{counts_in, filled_in};

// Whether it is filled: at least as many slots as asked for, and every bucket below the height empty.
pub fn check_is_filled(
    buckets: &[u32; 1088],
    numbers: &[u64; 16],
    asked: u64,
    height: usize,
) -> bool
    ensures { result ≡ filled_in buckets.now numbers.now asked height }
{
    if numbers[1] < asked {
        return false;
    }
    buckets::none_below(buckets, height)
}

// Writes the Display line to the start of what is lent and says how long it is; what is lent stays as it is where the line does not fit.
pub fn display(numbers: &[u64; 16], out: &mut [u8]) -> usize
    ensures { (result ≡ length (line_for (counts_in numbers.now))) × (out.new ≡ written (line_for (counts_in numbers.now)) out.old) }
{
    display::write_line(numbers[4], numbers[5], numbers[2], numbers[1], out)
}
