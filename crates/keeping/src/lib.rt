// What a transaction makes of the numbers of a buffer: whether one may begin or end, how much each half holds, the six numbers kept at begin
// and given back by a rollback, and the mark of an open one.
#![tactic(auto)]

ghost use Rattle.std.specs.Prelude.{◌≡◌, ◌*◌, ◌≤◌, length, get_or, set};
ghost use Rattle.index.specs.Names.{indexed_by};
ghost use Rattle.queues.specs.Transact.{copied};
ghost use Rattle.keeping.specs.Marks.{begin_code, end_code, held_of, kept_of};

use message::{Code, Refusal};

// How many messages and accounts a half holds.
#[derive(Clone, Copy)]
pub struct Extent {
    pub messages: usize,
    pub places: usize,
}

// ---- what may be done

// Whether a transaction may begin: not with one open.
pub fn may_begin(numbers: &[u64; 528]) -> Code
    ensures { result ≡ begin_code (get_or numbers.now 8 0) }
{
    if numbers[8] != 0 {
        return Err(Refusal::InTransaction);
    }
    Ok(())
}

// Whether a transaction may end: not without one.
pub fn may_end(numbers: &[u64; 528]) -> Code
    ensures { result ≡ end_code (get_or numbers.now 8 0) }
{
    if numbers[8] == 0 {
        return Err(Refusal::NoTransaction);
    }
    Ok(())
}

// ---- how much there is

// What is held.
pub fn held(numbers: &[u64; 528]) -> Extent
    ensures { result ≡ held_of numbers.now }
{
    Extent {
        messages: numbers[2] as usize,
        places: numbers[3] as usize,
    }
}

// What was held at begin.
// stays: beside `held`, no plainer as one function of where the numbers stand: `held_of` and `kept_of` are two halves of the model, and a call says which.
pub fn kept(numbers: &[u64; 528]) -> Extent
    ensures { result ≡ kept_of numbers.now }
{
    Extent {
        messages: numbers[9] as usize,
        places: numbers[10] as usize,
    }
}

// ---- what is written

// Keeps the counts and the minimum, and opens the transaction.
pub fn keep(numbers: &mut [u64; 528])
    ensures { numbers.new ≡ set (copied 2 9 6 numbers.old) 8 1 }
{
    cells::copy(numbers, 2, 9, 6);
    numbers[8] = 1;
}

// Closes the transaction.
pub fn forget(numbers: &mut [u64; 528])
    ensures { numbers.new ≡ set numbers.old 8 0 }
{
    numbers[8] = 0;
}

// Gives the counts and the minimum back, closes the transaction, and makes the index of the accounts given back.
pub fn give_back(accounts: &[u8; 16384], numbers: &mut [u64; 528])
    requires { (32 * get_or numbers.old 10 0 ≤ length accounts.now) × (get_or numbers.old 10 0 ≤ 256) }
    ensures { numbers.new ≡ indexed_by (get_or numbers.old 10 0) accounts.now (set (copied 9 2 6 numbers.old) 8 0) }
{
    let places = numbers[10] as usize;
    cells::copy(numbers, 9, 2, 6);
    forget(numbers);
    index::rebuild(accounts, places, numbers);
}
