// The bucket index brought up to date: after a fill, by the slots whose count changed, and after a join, by the slots that are new.
#![tactic(auto)]

ghost use Rattle.std.specs.Prelude.{◌<◌};
ghost use Rattle.rules.specs.Fill.{reindexed, listed_too};
ghost use Rattle.buckets.specs.Cells.{index};
ghost use Rattle.buckets.specs.Moves.{Plain, slots_of, Leaves, moved_on, MayPut, MayReindex, MayList};

use numbers::SlotId;

// A slot goes from bucket `old` to bucket `new`, and stays listed in the old one too unless another left it before.
fn moved(buckets: &mut [u32; 1088], old: usize, new: usize, number: SlotId, again: bool)
    requires { MayPut buckets.old new number.0 × (old < 17) }
    ensures { Leaves (moved_on old new number.0 again (index buckets.old)) buckets.new }
{
    buckets::put_last(buckets, new, number);
    if again {
        buckets::take_out(buckets, old, number);
    }
}

// The index after a fill, of n slots by rising number with their counts before it and after it.
pub fn reindex(
    buckets: [u32; 1088],
    numbers: &[u16],
    olds: &[u8],
    news: &[u8],
    n: usize,
) -> [u32; 1088]
    requires { MayReindex buckets numbers.now olds.now news.now n }
    ensures { Leaves (reindexed Plain (slots_of numbers.now olds.now n) (slots_of numbers.now news.now n) 0 (index buckets)) result }
{
    let mut made = buckets;
    let mut left = [0u8; 17];
    for i in 0..n {
        let old = usize::from(olds[i]);
        let new = usize::from(news[i]);
        if old != new {
            moved(&mut made, old, new, SlotId(numbers[i]), left[old] == 1);
            left[old] = 1;
        }
    }
    made
}

// The index after a join, of n new slots by rising number with their counts.
pub fn list_new(buckets: [u32; 1088], numbers: &[u16], counts: &[u8], n: usize) -> [u32; 1088]
    requires { MayList buckets numbers.now counts.now n }
    ensures { Leaves (listed_too Plain (slots_of numbers.now counts.now n) 0 (index buckets)) result }
{
    let mut made = buckets;
    for i in 0..n {
        buckets::put_last(&mut made, usize::from(counts[i]), SlotId(numbers[i]));
    }
    made
}
