// The roster of the slots: each slot's own accounts as a chain of members, so that a visit to a slot looks at no account of another. A member is
// a position in the column `member`; its home is the position of its slot.
// stays: a roster is links by index in one array of numbers and no lists of members: the memory of a fill is fixed, and `Listed` speaks of the cells.
#![tactic(auto)]

ghost use Rattle.std.specs.Prelude.{◌≡◌, ℕ, ◌<◌, ◌≤◌, get_or};
ghost use Rattle.rosters.specs.Rosters.{first_in, next_in, home_in, behind, appended, Listed};

const MEMBERS: usize = 1280;

const FIRSTS: usize = 1280;

const LASTS: usize = 1344;

// The first member of a slot.
pub fn first_in(roster: &[u16; 1408], slot: usize) -> usize
    requires { slot < 64 }
    ensures { result ≡ first_in roster.now slot }
{
    usize::from(roster[FIRSTS + slot])
}

// The member behind a member in its slot.
pub fn next_in(roster: &[u16; 1408], g: usize) -> usize
    requires { g < 1280 }
    ensures { result ≡ next_in roster.now g }
{
    usize::from(roster[g])
}

// The cell that names a newcomer of a slot: the next of its last member, or its first where it has none.
#[tactic(auto, unfolding(crate::specs::Rosters::behind))]
fn behind_last(roster: &[u16; 1408], slot: usize) -> usize
    requires { slot < 64 }
    ensures { result ≡ behind roster.now slot }
{
    let last = usize::from(roster[LASTS + slot]);
    if last < MEMBERS { last } else { FIRSTS + slot }
}

// Puts a member behind the last of its slot.
fn append(roster: &mut [u16; 1408], slot: usize, g: usize)
    requires { (slot < 64) × (g < 1280) }
    ensures { roster.new ≡ appended roster.old slot g }
{
    let cell = behind_last(roster, slot);
    roster[cell] = g as u16;
    roster[LASTS + slot] = g as u16;
}

// Enlists the members from `from` to below `to`, in order.
pub fn enlist(
    roster: &mut [u16; 1408],
    home: &[u8; 1280],
    member: &[u16; 1280],
    from: usize,
    to: usize,
)
    requires from_le_to { (from ≤ to) × (to ≤ 1280) }
    requires by_index { (g : ℕ) → g < to → get_or member.now g 0 < 1280 }
    requires by_index_2 { (g : ℕ) → g < to → home_in home.now member.now g < 64 }
    requires listed { Listed roster.old from home.now member.now }
    ensures { Listed roster.new to home.now member.now }
{
    for g in from..to {
        let party = usize::from(member[g]);
        append(roster, usize::from(home[party]), g);
    }
}
