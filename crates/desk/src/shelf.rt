// A shelf of four groups, of which the first `made` are set up; the others are fresh, with room for one slot.
ghost use Rattle.std.specs.Prelude.{◌≡◌, ◌-◌};
ghost use Rattle.lintelsong.specs.Closed.{GoodGroup};
ghost use Rattle.scenario.specs.declared.commands.ShelfOrder.TheVariants.{SetUp, Join};
ghost use Rattle.desk.specs.Desks.{GoodShelf};
ghost use Rattle.desk.specs.Shelves.{held_at, with_at, made_up_to, raised, JoinsOn, Obeyed};

use lintelsong::Group;
use lintelsong::group_calls::Joined;
use scenario::commands::ShelfOrder;
use scenario::replies::Reply;

#[derive(Clone, Copy)]
pub struct Shelf {
    pub made: usize,
    pub first: Group,
    pub second: Group,
    pub third: Group,
    pub fourth: Group,
}

// A shelf, and the answer.
// stays: what may not change: `repeat` by value answers with both, and keeps its contract.
#[derive(Clone, Copy)]
pub struct Kept {
    pub shelf: Shelf,
    pub reply: Reply,
}

// No group is set up.
pub fn fresh() -> Shelf
    ensures { GoodShelf result }
{
    let g = Group::set_up(1).group;
    Shelf {
        made: 0,
        first: g,
        second: g,
        third: g,
        fourth: g,
    }
}

// ---- a shelf that is lent: nothing as large as a shelf is copied

// The group at a place.
pub fn at(s: &Shelf, place: usize) -> Group
    requires { GoodShelf s.now }
    ensures good { GoodGroup result }
    ensures there { result ≡ held_at place s.now }
{
    if place == 0 {
        return s.first;
    }
    if place == 1 {
        return s.second;
    }
    if place == 2 {
        return s.third;
    }
    s.fourth
}

// Puts another group at a place.
pub fn put(s: &mut Shelf, place: usize, g: Group)
    requires { GoodShelf s.old × GoodGroup g }
    ensures good { GoodShelf s.new }
    ensures there { s.new ≡ with_at place g s.old }
{
    if place == 0 {
        s.first = g;
        return;
    }
    if place == 1 {
        s.second = g;
        return;
    }
    if place == 2 {
        s.third = g;
        return;
    }
    s.fourth = g;
}

// How many groups are set up, once the one at a place is.
fn made_with(made: usize, place: usize) -> usize
    ensures { result ≡ made_up_to place made }
{
    if place < made {
        return made;
    }
    if place < 3 { place + 1 } else { 4 }
}

// Puts a group that was set up at a place. Those below it that were not are taken for set up with room for one slot, which they have.
fn put_new(s: &mut Shelf, place: usize, g: Group)
    requires { GoodShelf s.old × GoodGroup g }
    ensures good { GoodShelf s.new }
    ensures there { s.new ≡ raised place (with_at place g s.old) }
{
    put(s, place, g);
    s.made = made_with(s.made, place);
}

// Sets a group up anew at a place.
fn set_up(s: &mut Shelf, place: usize, slots: u64) -> Reply
    requires { GoodShelf s.old }
    ensures good { GoodShelf s.new }
    ensures obeyed { Obeyed (SetUp place slots) 1 s.old s.new result }
{
    let a = Group::set_up(slots);
    put_new(s, place, a.group);
    Reply::Code(message::number_of(a.code))
}

// Joins the right group to the left one so many times, once at least; the answer is the last one.
fn joined(l: Group, r: Group, times: u64) -> Joined
    requires { GoodGroup l × GoodGroup r }
    ensures good { GoodGroup result.left × GoodGroup result.right }
    ensures joined { JoinsOn (times - 1) l r result.code result.left result.right }
{
    let mut j = l.join(r);
    for _count in 1..times {
        j = j.left.join(j.right);
    }
    j
}

// Joins the groups at two places.
fn join(s: &mut Shelf, left: usize, right: usize, times: u64) -> Reply
    requires { GoodShelf s.old }
    ensures good { GoodShelf s.new }
    ensures obeyed { Obeyed (Join left right) times s.old s.new result }
{
    let j = joined(at(s, left), at(s, right), times);
    put(s, left, j.left);
    put(s, right, j.right);
    Reply::Code(message::number_of(j.code))
}

// Does an order so many times, once at least; the answer is the last one. A set-up done again leaves the same.
pub fn repeat_on(s: &mut Shelf, times: u64, o: ShelfOrder) -> Reply
    requires { GoodShelf s.old }
    ensures good { GoodShelf s.new }
    ensures obeyed { Obeyed o times s.old s.new result }
{
    match o {
        ShelfOrder::SetUp(place, slots) => set_up(s, place, slots),
        ShelfOrder::Join(left, right) => join(s, left, right, times),
    }
}

// ---- the same of a shelf by value
// stays: what may not change: `group_at`, `with_group` and `repeat` are public and keep their contracts, each a call of the lent one.

// The group at a place.
pub fn group_at(s: Shelf, place: usize) -> Group
    requires { GoodShelf s }
    ensures { GoodGroup result }
{
    at(&s, place)
}

// The shelf with another group at a place.
pub fn with_group(s: Shelf, place: usize, g: Group) -> Shelf
    requires { GoodShelf s × GoodGroup g }
    ensures { GoodShelf result }
{
    let mut after = s;
    put(&mut after, place, g);
    after
}

// Does an order so many times, once at least; the answer is the last one. A set-up done again leaves the same.
pub fn repeat(s: Shelf, times: u64, o: ShelfOrder) -> Kept
    requires { GoodShelf s }
    ensures { GoodShelf result.shelf }
{
    let mut shelf = s;
    let reply = repeat_on(&mut shelf, times, o);
    Kept { shelf, reply }
}
