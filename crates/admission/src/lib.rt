// Whether an add is taken, and the seat that a new account gets: its name behind the last, and in the index.
#![tactic(auto)]

ghost use Rattle.std.specs.Prelude.{◌≡◌, ◌<◌};
ghost use Rattle.queues.specs.Append.{add_code_c};
ghost use Rattle.admission.specs.Seats.{SeatedIn};

use message::{Code, Message, Refusal};

// Whether an add is taken, and why not: codes 2 to 5, the lowest that fits. `seat` is the place of the account, or the number of places.
pub fn decide(m: Message, seat: usize, numbers: &[u64; 528]) -> Code
    ensures { result ≡ add_code_c m seat numbers.now }
{
    if m.special {
        return Err(Refusal::Special);
    }
    if 1 < m.kind {
        return Err(Refusal::WrongKind);
    }
    let full = numbers[0] <= numbers[2];
    let crowded = (numbers[3] <= seat as u64) & (numbers[1] <= numbers[3]);
    if full {
        return Err(Refusal::Full);
    }
    if crowded {
        return Err(Refusal::Crowded);
    }
    Ok(())
}

// Gives the account x the seat behind the last, if that is its seat, and enters its name in the index.
pub fn seat_in(
    seat: usize,
    places: usize,
    x: &[u8; 32],
    accounts: &mut [u8; 16384],
    numbers: &mut [u64; 528],
)
    requires { seat < 256 }
    ensures { SeatedIn seat places x.now accounts.old numbers.old accounts.new numbers.new }
{
    if places <= seat {
        rows::put_row(accounts, seat, x);
        index::enter(x, seat, numbers);
    }
}
