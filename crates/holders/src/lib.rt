// Who stays in the buffer at the end of a fill: the places that still hold a row, and the seats that they move up to.
#![tactic(auto)]

ghost use Rattle.std.specs.Prelude.{◌≡◌, not, ◌≤◌, eqb, get_or};
ghost use Rattle.leaving.specs.Seats.{Seated};
ghost use Rattle.settle.specs.Ends.{held_by, emptied};

// Marks the places that own one of the first n rows.
fn mark_holders(owner: &[u16; 1024], n: usize, held: &mut [u8; 256])
    requires { n ≤ 1024 }
    ensures { held.new ≡ held_by n owner.now held.old }
{
    for i in 0..n {
        let o = owner[i];
        if packing::is_place(o) {
            held[usize::from(o)] = 1;
        }
    }
}

// Gives each of a places its seat: those that are marked move up, and the seats of the others stay marks. Says how many stay.
fn seat_held(held: &[u8; 256], a: usize, seats: &mut [u16; 256]) -> usize
    requires { a ≤ 256 }
    ensures { Seated (λ p. not (eqb (get_or held.now p 0) 1)) a seats.old seats.new result }
{
    let mut w: usize = 0;
    for p in 0..a {
        if held[p] == 1 {
            seats[p] = w as u16;
            w += 1;
        }
    }
    w
}

// The seats of a places: those that still own one of the first n rows move up, the others go. Says how many stay.
pub fn seat_holders(owner: &[u16; 1024], n: usize, a: usize, seats: &mut [u16; 256]) -> usize
    requires { (n ≤ 1024) × (a ≤ 256) }
    ensures { Seated (emptied n owner.now) a seats.old seats.new result }
{
    let mut held = [0u8; 256];
    mark_holders(owner, n, &mut held);
    seat_held(&held, a, seats)
}
