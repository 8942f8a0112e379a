// The entry of a fill: the columns of numbers that the passes work on, made of the buffer's columns, the group's, the skipped set and the
// skip rows; here the group's accounts and the slots. An account is a number, its party: its place in the buffer's order, or 256 and its row in
// the group. No byte is compared behind this point.
#![tactic(auto)]

ghost use Rattle.std.specs.Prelude.{◌≡◌, ℕ, ◌+◌, ◌-◌, ◌*◌, ◌<◌, ◌≤◌, length, get_or, take};
ghost use Rattle.rules.specs.World.{joined};
ghost use Rattle.buckets.specs.Cells.{index, GoodBuckets};
ghost use Rattle.entry.specs.Entry.{numbered_c, housed_c, Lists};

// ---- the group's accounts as parties

// Numbers the n accounts of the group: an account with a place in the order is that place, the g-th of the others 256 + g.
pub fn number_members(order: &[u8], places: usize, group: &[u8], n: usize, member: &mut [u16; 1280])
    requires places_in_bounds { (32 * places ≤ length order.now) × (32 * n ≤ length group.now) }
    requires places_bound { (places ≤ 256) × (n ≤ 1024) }
    ensures { member.new ≡ numbered_c order.now places group.now n member.old }
{
    for g in 0..n {
        let x = rows::get_row(group, g);
        let seat = rows::find_row(order, places, &x);
        let party = if seat < places { seat } else { 256 + g };
        member[g] = party as u16;
    }
}

// Gives each member its home: the position of its slot in the group.
pub fn house(homes: &[u8], n: usize, member: &[u16; 1280], home: &mut [u8; 1280])
    requires n_in_bounds { (n ≤ length homes.now) × (n ≤ 1280) }
    requires by_index { (g : ℕ) → g < n → get_or member.now g 0 < 1280 }
    ensures { home.new ≡ housed_c homes.now member.now n 0 home.old }
{
    for g in 0..n {
        let party = usize::from(member[g]);
        home[party] = homes[g];
    }
}

// ---- the slots

// Lists the slots of the buckets below the height, in order, and says how many there are. Behind the entries of a bucket stand marks.
pub fn list_below(buckets: &[u32; 1088], height: usize, listed: &mut [u16; 1024]) -> usize
    requires { GoodBuckets buckets.now × (height ≤ 16) }
    ensures { Lists (joined (take height (index buckets.now))) listed.old listed.new result }
{
    let mut count: usize = 0;
    for &x in &buckets[..64 * height] {
        let entry = x < buckets::NONE;
        if entry {
            listed[count] = x as u16;
            count += 1;
        }
    }
    count
}

// How many slots are to be opened: those asked for less those held, not below 0.
pub fn to_open(asked: usize, held: usize) -> usize
    ensures { result ≡ asked - held }
{
    if asked < held { 0 } else { asked - held }
}
