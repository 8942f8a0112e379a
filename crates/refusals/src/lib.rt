// Whether a fill is taken: codes 9 to 13, the lowest that fits, before anything changes. The tests are those of `limits` and `over_height`.
#![tactic(auto)]

ghost use Rattle.std.specs.Prelude.{◌≡◌};
ghost use Rattle.refusals.specs.Refusals.{MayDecide, code_c};

use message::{Code, Refusal};

// The code of a fill with `keys` key rows and `rows` skip rows, the set holding `held` accounts.
pub fn decide(
    asked: u64,
    height: u64,
    keys: usize,
    rows: usize,
    verdicts: &[u8],
    held: usize,
    numbers: &[u64; 528],
    number: &[u16; 64],
    ints: &[u8; 64],
    exts: &[u8; 64],
    buckets: [u32; 1088],
    numbers2: &[u64; 16],
) -> Code
    requires { MayDecide rows verdicts.now held buckets numbers2.now }
    ensures { result ≡ code_c asked height keys rows verdicts.now held numbers.now number.now ints.now exts.now buckets numbers2.now }
{
    if limits::too_large(asked, height, numbers2[0]) {
        return Err(Refusal::TooLarge);
    }
    if limits::few_keys(keys, numbers) {
        return Err(Refusal::FewKeys);
    }
    if limits::many_skips(rows, verdicts, held) {
        return Err(Refusal::ManySkips);
    }
    let slots = numbers2[1] as usize;
    if limits::used_up(asked as usize, slots, numbers2[6]) {
        return Err(Refusal::NumbersUsedUp);
    }
    if over_height::overfull(number, ints, exts, slots, &buckets, height as usize) {
        return Err(Refusal::Overfull);
    }
    Ok(())
}
