// Who leaves in a removal: the seats of the accounts that are not named, and the externals that would go with those that are.
#![tactic(auto)]

ghost use Rattle.std.specs.Prelude.{◌≡◌, ◌*◌, ◌≤◌, length};
ghost use Rattle.queues.specs.Compact.{named_c, lost_externals};
ghost use Rattle.leaving.specs.Seats.{Seated, Owned};

// Gives each of a places its seat: those of accounts that are not named move up, and the seats of the named stay marks. Says how many stay.
pub fn seat_unnamed(
    accounts: &[u8; 16384],
    a: usize,
    names: &[u8],
    k: usize,
    seats: &mut [u16; 256],
) -> usize
    requires { (a ≤ 256) × (32 * k ≤ length names.now) }
    ensures { Seated (named_c names.now k accounts.now) a seats.old seats.new result }
{
    let mut w: usize = 0;
    for p in 0..a {
        let x = rows::get_row(accounts, p);
        let stays = k <= rows::find_row(names, k, &x);
        if stays {
            seats[p] = w as u16;
            w += 1;
        }
    }
    w
}

// How many of the first n messages are externals of an account that goes.
pub fn lost_externals(owner: &[u16; 2048], kind: &[u8; 2048], n: usize, seats: &[u16; 256]) -> usize
    requires { Owned n owner.now (length kind.now) (length seats.now) }
    ensures { result ≡ lost_externals seats.now kind.now n owner.now }
{
    let mut count: usize = 0;
    for i in 0..n {
        let external = kind[i] == 1;
        if external {
            if !packing::is_place(seats[usize::from(owner[i])]) {
                count += 1;
            }
        }
    }
    count
}
