// Words cut out of a line. A word ends where a space stands; no other byte separates.
ghost use Rattle.std.specs.Prelude.{◌≡◌, ℕ, Bool, not, ◌<◌, drop};
ghost use Rattle.words.specs.Cut.{leading, run, before, Leads, IsWord};

// A part of a line: from its first byte to the one behind its last.
// stays: no plainer as a `Range`, which isn't `Copy`: a word is cut by it and the next one begins at its end.
#[derive(Clone, Copy)]
pub struct Span {
    pub from: usize,
    pub to: usize,
}

// The first index from `from` on whose byte passes the test; the length if there is none.
fn first<F: Fn(u8) -> bool>(s: &[u8], from: usize, test: F) -> usize
    requires { F.IsAlwaysCallable test }
    ensures { (passed : ℕ → Bool) → ((b : ℕ) (r : Bool) → F.post test b r → passed b ≡ not r) → Leads from s.now (leading passed (drop from s.now)) result }
{
    for i in from..s.len() {
        if test(s[i]) {
            return i;
        }
    }
    s.len()
}

// The first index from `from` on whose byte is not b; the length if there is none.
pub fn skip(s: &[u8], from: usize, b: u8) -> usize
    ensures { Leads from s.now (run b (drop from s.now)) result }
{
    first(s, from, |x| x != b)
}

// The first index from `from` on whose byte is b; the length if there is none.
pub fn until(s: &[u8], from: usize, b: u8) -> usize
    ensures { Leads from s.now (before b (drop from s.now)) result }
{
    first(s, from, |x| x == b)
}

// The first word from `at` on; an empty one, at the end, if there is none.
pub fn word(s: &[u8], at: usize) -> Span
    ensures { IsWord at s.now result }
{
    let from = skip(s, at, b' ');
    let to = until(s, from, b' ');
    Span { from, to }
}
