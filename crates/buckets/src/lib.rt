// The bucket index of a group: for each count of messages from 0 to 16 the numbers of the slots listed there, in the order they came. A
// bucket is 64 cells of one array, which is lent from call to call.
#![tactic(auto)]

ghost use Rattle.std.specs.Prelude.{◌≡◌, ◌<◌, length, get_or, take};
ghost use Rattle.rules.specs.World.{is_nil, joined};
ghost use Rattle.rules.specs.Fill as rules;
ghost use Rattle.buckets.specs.Cells.{mark, bucket_of, index, GoodBuckets};
ghost use Rattle.buckets.specs.Moves.{Plain, Leaves, put_last, taken_out, MayPut};

use numbers::SlotId;

// No entry. 0 and 65,535 are slot numbers.
pub const NONE: u32 = 65536;

// Seventeen empty buckets.
pub fn fresh() -> [u32; 1088]
    ensures { Leaves (rules.fresh Plain).index result }
{
    [NONE; 1088]
}

// How many slots bucket c lists: the place of its first mark.
pub fn listed(buckets: &[u32; 1088], c: usize) -> usize
    requires { c < 17 }
    ensures { result ≡ length (bucket_of buckets.now c) }
{
    let base = 64 * c;
    buckets[base..base + 64]
        .iter()
        .position(|&x| x >= NONE)
        .unwrap_or(64)
}

// The k-th slot that bucket c lists, the mark behind the last.
pub fn entry(buckets: &[u32; 1088], c: usize, k: usize) -> u32
    requires { GoodBuckets buckets.now × (c < 17) × (k < 64) }
    ensures { result ≡ get_or (bucket_of buckets.now c) k mark }
{
    buckets[64 * c + k]
}

// Lists a slot last in bucket c.
pub fn put_last(buckets: &mut [u32; 1088], c: usize, number: SlotId)
    requires { MayPut buckets.old c number.0 }
    ensures { Leaves (put_last c number.0 (index buckets.old)) buckets.new }
{
    let k = listed(buckets, c);
    buckets[64 * c + k] = u32::from(number.0);
}

// Takes a slot out of bucket c, where it is listed there: those behind it move up.
pub fn take_out(buckets: &mut [u32; 1088], c: usize, number: SlotId)
    requires { GoodBuckets buckets.old × (c < 17) }
    ensures { Leaves (taken_out c number.0 (index buckets.old)) buckets.new }
{
    let base = 64 * c;
    let gone = u32::from(number.0);
    let mut w: usize = 0;
    for i in 0..64 {
        let x = buckets[base + i];
        if x != gone {
            buckets[base + w] = x;
            w += 1;
        }
    }
    buckets[base + w..base + 64].fill(NONE);
}

// Whether every bucket below the height is empty.
pub fn none_below(buckets: &[u32; 1088], height: usize) -> bool
    ensures { result ≡ is_nil (joined (take height (index buckets.now))) }
{
    for c in 0..height.min(17) {
        if buckets[64 * c] < NONE {
            return false;
        }
    }
    true
}
