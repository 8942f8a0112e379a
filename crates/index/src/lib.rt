// The index of the names in an account order: which place has a name, without comparing it with every name. It stands behind the first
// sixteen numbers of a buffer: 16 to 271 the links, 272 to 527 the heads. A name's hash is its last byte: names are hashes themselves, so
// they spread evenly. Where all names end in one byte a search compares with each of them, as a scan does.
#![tactic(auto)]

ghost use Rattle.std.specs.Prelude.{◌≡◌, ◌*◌, ◌≤◌, ◌<◌, length, drop};
ghost use Rattle.columns.specs.Rows.{rows_of, index_of};
ghost use Rattle.index.specs.Names.{linked_c, enter_c, with_index, indexed_by};
ghost use Rattle.index.specs.Needs.{Sought};

// The place of the name x among the first `places`, `places` if it has none: from the last place with x's hash to the one before it.
pub fn find(accounts: &[u8; 16384], places: usize, numbers: &[u64; 528], x: &[u8; 32]) -> usize
    requires { Sought accounts.now places numbers.now x.now }
    ensures { result ≡ index_of x.now (rows_of places accounts.now) }
{
    let hash = usize::from(x[31]);
    let mut next = numbers[272 + hash] as usize;
    // stays: a walk along a chain: no range or iterator gives these places, and a chain of `successors` would be no plainer.
    while next != 0 {
        let place = next - 1;
        if rows::same_row(accounts, place, x) {
            return place;
        }
        next = numbers[16 + place] as usize;
    }
    places
}

// Makes this place the last one with this hash.
fn link(hash: usize, place: usize, numbers: &mut [u64; 528])
    requires { (hash < 256) × (place < 256) }
    ensures { numbers.new ≡ with_index (linked_c hash place (drop 16 numbers.old)) numbers.old }
{
    let before = numbers[272 + hash];
    numbers[16 + place] = before;
    numbers[272 + hash] = place as u64 + 1;
}

// Enters the name x at this place, behind all that are in the index.
pub fn enter(x: &[u8; 32], place: usize, numbers: &mut [u64; 528])
    requires { place < 256 }
    ensures { numbers.new ≡ with_index (enter_c x.now place (drop 16 numbers.old)) numbers.old }
{
    link(usize::from(x[31]), place, numbers);
}

// The index of the first `places` accounts, made anew.
pub fn rebuild(accounts: &[u8; 16384], places: usize, numbers: &mut [u64; 528])
    requires { (32 * places ≤ length accounts.now) × (places ≤ 256) }
    ensures { numbers.new ≡ indexed_by places accounts.now numbers.old }
{
    cells::clear(numbers, 16, 512, 0);
    for place in 0..places {
        link(usize::from(accounts[32 * place + 31]), place, numbers);
    }
}
