// What a fill took goes to the group: the rows taken are copied from the buffer, the accounts that entered with their slots, and the numbers
// are put right.
#![tactic(auto)]

ghost use Rattle.std.specs.Prelude.{◌≡◌, ℕ, ◌*◌, ◌≤◌, ◌<◌, length, get_or};
ghost use Rattle.columns.specs.Lists.{tab_i};
ghost use Rattle.columns.specs.Laid.{laid_at};
ghost use Rattle.columns.specs.Rows.{flat};
ghost use Rattle.settle.specs.Copies.{Takes, TakesRows, TakesOwners, rows_at, seats_at, seated_by, Fields, Bodies, Entered};
ghost use Rattle.settle.specs.Ends.{in_counts, MayCount};

// The cells of n rows, which `rows` names from `first` on, go to the cells from `at` on. What a cell that is not there would hold does not
// matter.
pub fn collect<T: Copy>(from: &[T], rows: &[u16], first: usize, n: usize, to: &mut [T], at: usize)
    requires { Takes first n (length from.now) rows.now at (length to.old) }
    ensures { (none : T) → to.new ≡ laid_at at (tab_i n first (λ k. get_or from.now (get_or rows.now k 0) none)) to.old }
{
    for k in 0..n {
        to[at + k] = from[usize::from(rows[first + k])];
    }
}

// The same for rows of 32 bytes.
pub fn collect_rows(from: &[u8], rows: &[u16], first: usize, n: usize, to: &mut [u8], at: usize)
    requires { TakesRows first n (length from.now) rows.now at (length to.old) }
    ensures { to.new ≡ laid_at (32 * at) (flat (rows_at n first rows.now from.now)) to.old }
{
    for k in 0..n {
        let x = rows::get_row(from, usize::from(rows[first + k]));
        rows::put_row(to, at + k, &x);
    }
}

// The seat of each of the first n members of the group: which of them it is.
pub fn seat_members(member: &[u16; 1280], n: usize, seat: &mut [u16; 1280])
    requires n_bound { n ≤ 1280 }
    requires by_index { (g : ℕ) → g < n → get_or member.now g 0 < 1280 }
    ensures { seat.new ≡ seated_by n member.now seat.old }
{
    for g in 0..n {
        seat[usize::from(member[g])] = g as u16;
    }
}

// The owners of the rows taken: the seat of the party that each was taken from.
pub fn collect_owners(
    owner: &[u16; 1024],
    rows: &[u16; 1024],
    n: usize,
    seat: &[u16; 1280],
    to: &mut [u16; 1024],
    at: usize,
)
    requires { TakesOwners n owner.now rows.now at (length seat.now) (length to.old) }
    ensures { to.new ≡ laid_at at (seats_at n rows.now owner.now seat.now) to.old }
{
    for k in 0..n {
        let o = usize::from(owner[usize::from(rows[k])]);
        to[at + k] = seat[o - 2048];
    }
}

// Kind, form and time of the rows taken.
pub fn collect_fields(
    rows: &[u16; 1024],
    n: usize,
    kind: &[u8; 2048],
    form: &[u8; 2048],
    time: &[u64; 2048],
    kind2: &mut [u8; 1024],
    form2: &mut [u8; 1024],
    time2: &mut [u64; 1024],
    at: usize,
)
    requires takes { Takes 0 n (length kind.now) rows.now at (length kind2.old) }
    requires form_len { (length form.now ≡ length kind.now) × (length time.now ≡ length kind.now) × (length form2.old ≡ length kind2.old) × (length time2.old ≡ length kind2.old) }
    ensures { Fields n rows.now at kind.now form.now time.now kind2.old form2.old time2.old kind2.new form2.new time2.new }
{
    collect(kind, rows, 0, n, kind2, at);
    collect(form, rows, 0, n, form2, at);
    collect(time, rows, 0, n, time2, at);
}

// Address and hash of the rows taken.
pub fn collect_bodies(
    rows: &[u16; 1024],
    n: usize,
    address: &[u8; 65536],
    hash: &[u8; 65536],
    address2: &mut [u8; 32768],
    hash2: &mut [u8; 32768],
    at: usize,
)
    requires takes_rows { TakesRows 0 n (length address.now) rows.now at (length address2.old) }
    requires hash_len { (length hash.now ≡ length address.now) × (length hash2.old ≡ length address2.old) }
    ensures { Bodies n rows.now at address.now hash.now address2.old hash2.old address2.new hash2.new }
{
    collect_rows(address, rows, 0, n, address2, at);
    collect_rows(hash, rows, 0, n, hash2, at);
}

// The n members of the group from `first` on, which entered it in this fill: their accounts, and the positions of their slots.
pub fn enter(
    member: &[u16; 1280],
    first: usize,
    n: usize,
    accounts: &[u8; 16384],
    home: &[u8; 1280],
    accounts2: &mut [u8; 32768],
    home2: &mut [u8; 1024],
)
    requires takes_rows { TakesRows first n (length accounts.now) member.now first (length accounts2.old) }
    requires takes { Takes first n (length home.now) member.now first (length home2.old) }
    ensures { Entered first n member.now accounts.now home.now accounts2.old home2.old accounts2.new home2.new }
{
    collect_rows(accounts, member, first, n, accounts2, first);
    collect(home, member, first, n, home2, first);
}

// The numbers of a group that holds these slots and accounts, and n messages more, `ints` of them internals. Where slots were to be opened,
// the last number is the one given.
pub fn count_in(
    slots: usize,
    accounts: usize,
    n: usize,
    ints: usize,
    opens: usize,
    last: usize,
    numbers: &mut [u64; 16],
)
    requires { MayCount n ints numbers.old }
    ensures { numbers.new ≡ in_counts slots accounts n ints opens last numbers.old }
{
    let messages = numbers[3] + n as u64;
    let internals = numbers[4] + ints as u64;
    let externals = numbers[5] + (n - ints) as u64;
    numbers[1] = slots as u64;
    numbers[2] = accounts as u64;
    numbers[3] = messages;
    numbers[4] = internals;
    numbers[5] = externals;
    if opens != 0 {
        numbers[6] = last as u64;
        numbers[7] = 1;
    }
}
