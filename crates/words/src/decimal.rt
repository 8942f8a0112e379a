// Decimal numbers: a word read, and a number's digits written.
ghost use Rattle.std.specs.Prelude.{◌≡◌, [], ◌≤◌, length, take};
ghost use Rattle.words.specs.Digits.{number_of, spelled, places as places_of, Written};

// The number that a word stands for: one or more digits, zeros in front allowed, with a value of at most 2^64 - 1. Any other word is none.
pub fn read(word: &[u8]) -> Option<u64>
    ensures { result ≡ number_of word.now }
{
    if word.is_empty() {
        return None;
    }
    let mut value: u64 = 0;
    for &b in word {
        if !b.is_ascii_digit() {
            return None;
        }
        value = value.checked_mul(10)?.checked_add(u64::from(b - b'0'))?;
    }
    Some(value)
}

// How many digits n has.
fn places(n: u64) -> usize
    ensures { result ≡ places_of n }
{
    let mut k: usize = 1;
    let mut rest = n;
    // stays: no plainer as a `for`: no index is counted, the number is divided until one digit is left
    while 10 <= rest {
        rest /= 10;
        k += 1;
    }
    k
}

// Writes the last k digits of n to the start of `out`, the first of them first.
fn spell(n: u64, k: usize, out: &mut [u8])
    requires { k ≤ length out.old }
    ensures { take k out.new ≡ spelled 10 48 k n [] }
{
    let mut rest = n;
    for i in (0..k).rev() {
        out[i] = b'0' + (rest % 10) as u8;
        rest /= 10;
    }
}

// Writes the digits of n to the start of `out`, the first digit first and no zero in front, and says how many there are.
pub fn write(n: u64, out: &mut [u8; 20]) -> usize
    ensures { Written n out.new result }
{
    let k = places(n);
    spell(n, k, out);
    k
}
