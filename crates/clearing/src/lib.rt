// A group cleared part by part: of each column only the cells in use, its buckets, and its numbers but for its room.
#![tactic(auto)]

ghost use Rattle.std.specs.Prelude.{◌≡◌, ◌∷◌, ◌*◌, length, get_or, replicate};
ghost use Rattle.buckets.specs.Cells.{mark};
ghost use Rattle.clearing.specs.Clear.{InUse, Clear};

// Clears the n slots in use.
pub fn clear_slots(n: usize, number: &mut [u16; 64], ints: &mut [u8; 64], exts: &mut [u8; 64])
    requires { InUse n 64 number.old × InUse n 64 ints.old × InUse n 64 exts.old }
    ensures { Clear 64 number.new × Clear 64 ints.new × Clear 64 exts.new }
{
    cells::clear(number, 0, n, 0);
    cells::clear(ints, 0, n, 0);
    cells::clear(exts, 0, n, 0);
}

// Clears the n accounts in use.
pub fn clear_accounts(n: usize, accounts: &mut [u8; 32768], home: &mut [u8; 1024])
    requires { InUse (32 * n) 32768 accounts.old × InUse n 1024 home.old }
    ensures { Clear 32768 accounts.new × Clear 1024 home.new }
{
    cells::clear(accounts, 0, 32 * n, 0);
    cells::clear(home, 0, n, 0);
}

// Clears the n messages in use.
pub fn clear_messages(
    n: usize,
    owner: &mut [u16; 1024],
    kind: &mut [u8; 1024],
    form: &mut [u8; 1024],
    time: &mut [u64; 1024],
)
    requires { InUse n 1024 owner.old × InUse n 1024 kind.old × InUse n 1024 form.old × InUse n 1024 time.old }
    ensures { Clear 1024 owner.new × Clear 1024 kind.new × Clear 1024 form.new × Clear 1024 time.new }
{
    cells::clear(owner, 0, n, 0);
    cells::clear(kind, 0, n, 0);
    cells::clear(form, 0, n, 0);
    cells::clear(time, 0, n, 0);
}

// Clears the records of the n messages in use.
pub fn clear_records(n: usize, address: &mut [u8; 32768], hash: &mut [u8; 32768])
    requires { InUse (32 * n) 32768 address.old × InUse (32 * n) 32768 hash.old }
    ensures { Clear 32768 address.new × Clear 32768 hash.new }
{
    cells::clear(address, 0, 32 * n, 0);
    cells::clear(hash, 0, 32 * n, 0);
}

// Empties every bucket.
pub fn clear_buckets(buckets: &mut [u32; 1088])
    ensures { buckets.new ≡ replicate 1088 mark }
{
    *buckets = [buckets::NONE; 1088];
}

// Clears the numbers and keeps the first, the room.
pub fn clear_numbers(numbers: &mut [u64; 16])
    ensures { numbers.new ≡ get_or numbers.old 0 0 ∷ replicate 15 0 }
{
    let room = numbers[0];
    let mut fresh = [0u64; 16];
    fresh[0] = room;
    *numbers = fresh;
}
