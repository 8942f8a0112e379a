// The plan of a fill, made at its entry: the class of each row, and the chain of each queue; and the owners, copied.
#![tactic(auto)]

ghost use Rattle.std.specs.Prelude.{◌≡◌, ℕ, ◌+◌, ◌-◌, ◌<◌, ◌≤◌, length, get_or};
ghost use Rattle.entry.specs.Entry.{classes_c, owners_c, link_c};

use message::Filter;

// The class of each of n rows, in the first cells of the plan: 2 for a droppable one, else its kind.
pub fn classify(kind: &[u8], time: &[u64], filter: Filter, n: usize, plan: &mut [u16; 2304])
    requires { (n ≤ length kind.now) × (n ≤ length time.now) × (n ≤ 1024) }
    ensures { plan.new ≡ classes_c filter kind.now time.now n plan.old }
{
    for i in 0..n {
        let k = kind[i];
        let class = if message::droppable(filter, k, time[i]) {
            2
        } else {
            k
        };
        plan[i] = u16::from(class);
    }
}

// Copies the owners of n rows.
pub fn own(owner: &[u16], n: usize, scratch: &mut [u16; 1024])
    requires { (n ≤ length owner.now) × (n ≤ 1024) }
    ensures { scratch.new ≡ owners_c owner.now n scratch.old }
{
    scratch[..n].copy_from_slice(&owner[..n]);
}

// Chains the queues of n rows, in the cells of the plan behind the classes: the next row of each row, and the first row of each place. One
// pass from the last row to the first, at which the first row known of a place is the next one of the row that is met.
pub fn link(owner: &[u16], n: usize, plan: &mut [u16; 2304])
    requires n_in_bounds { (n ≤ length owner.now) × (n ≤ 1024) }
    requires by_index { (i : ℕ) → i < n → get_or owner.now i 0 < 256 }
    ensures { plan.new ≡ link_c owner.now n plan.old }
{
    for i in (0..n).rev() {
        let place = usize::from(owner[i]);
        plan[1024 + i] = plan[2048 + place];
        plan[2048 + place] = i as u16;
    }
}
