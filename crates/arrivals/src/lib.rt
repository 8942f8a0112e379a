// The numbers of a buffer when a message comes: one more is held, of its kind, perhaps of a new account, and an external may lower the minimum.
#![tactic(auto)]

ghost use Rattle.std.specs.Prelude.{◌≡◌, ◌<◌};
ghost use Rattle.queues.specs.Append.{more as more_of, lowest as lowest_of, counted_c};
ghost use Rattle.arrivals.specs.Countable.{Countable};

// n, and one more where the test holds.
fn more(test: bool, n: u64) -> u64
    requires { n < 4096 }
    ensures { result ≡ more_of test n }
{
    if test { n + 1 } else { n }
}

// The minimum with an external of time t: lowered, or set if there was none.
fn lowest(marked: u64, least: u64, t: u64) -> u64
    ensures { result ≡ lowest_of marked least t }
{
    if marked == 0 {
        t
    } else if t < least {
        t
    } else {
        least
    }
}

// Counts one message more, of this kind and time, at this seat.
pub fn count_in(kind: u8, time: u64, seat: usize, numbers: &mut [u64; 528])
    requires { Countable numbers.old }
    ensures { numbers.new ≡ counted_c kind time seat numbers.old }
{
    let external = kind == 1;
    let held = numbers[2];
    let places = numbers[3];
    let ints = numbers[4];
    let exts = numbers[5];
    let least = numbers[6];
    let marked = numbers[7];
    numbers[2] = held + 1;
    numbers[3] = more(places <= seat as u64, places);
    numbers[4] = more(kind == 0, ints);
    numbers[5] = more(external, exts);
    numbers[6] = if external {
        lowest(marked, least, time)
    } else {
        least
    };
    numbers[7] = if external { 1 } else { marked };
}
