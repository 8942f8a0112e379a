// A message as it comes, what its kind byte says, the account it is for, the filter that makes an old external droppable, and the codes
// that every call answers with.
#![tactic(auto)]

ghost use Rattle.std.specs.Prelude.{◌≡◌};
ghost use Rattle.message.specs.Answers.{number, refusal_number, kind_of};
ghost use Rattle.message.specs.Records.{account_of, blank_message, drops};

// Whether the destination is an address of the standard form.
#[derive(Clone, Copy)]
pub enum Form {
    Standard,
    Other,
}

// A message record. The time is created_lt for an internal and the chain time for an external.
#[derive(Clone, Copy)]
pub struct Message {
    pub kind: u8,
    pub special: bool,
    pub form: Form,
    pub address: [u8; 32],
    pub time: u64,
    pub hash: [u8; 32],
}

// What a kind byte says.
#[derive(Clone, Copy)]
pub enum Kind {
    Internal,
    External,
    Refused,
}

// With the filter on, an external of a chain time below the threshold is droppable.
#[derive(Clone, Copy)]
pub enum Filter {
    Off,
    Below(u64),
}

// Why a call is refused. The number of each stands above it.
#[derive(Clone, Copy)]
pub enum Refusal {
    // 1: set-up numbers outside their ranges
    SetUp,
    // 2: add: special mark set
    Special,
    // 3: add: kind is neither 0 nor 1
    WrongKind,
    // 4: add: M messages held
    Full,
    // 5: add: the account has no queue and A accounts are held
    Crowded,
    // 6: commit or rollback without a transaction
    NoTransaction,
    // 7: begin with one open
    InTransaction,
    // 8: remove: a named account's queue holds an external
    HoldsExternal,
    // 9: fill: slots asked for above S, or height above 16
    TooLarge,
    // 10: fill: key list has fewer rows than the buffer's internal count
    FewKeys,
    // 11: fill: more than 256 skip rows, or skipped set size plus rows saying skip (repeats included) above 512
    ManySkips,
    // 12: slot numbers used up
    NumbersUsedUp,
    // 13: fill: a bucket numbered below the height lists a slot that holds more than the height
    Overfull,
    // 14: join: slots together above the left group's S
    ManySlots,
    // 15: join: an account is in both groups
    SharedAccount,
}

// What a call answers: done, or why it was refused.
pub type Code = Result<(), Refusal>;

// The decision on the kind byte: all codes from 2 to 255 are one refused range.
impl From<u8> for Kind {
    ghost from_gives = { λ n k. k ≡ kind_of n };

    fn from(kind: u8) -> Kind {
        match kind {
            0 => Kind::Internal,
            1 => Kind::External,
            2..=255 => Kind::Refused,
        }
    }
}

// Whether a message of this kind and time is droppable: the filter is on, the kind is external, the chain time strictly below the threshold.
pub fn droppable(f: Filter, kind: u8, time: u64) -> bool
    ensures { result ≡ drops f kind time }
{
    match f {
        Filter::Off => false,
        Filter::Below(threshold) => kind == 1 && time < threshold,
    }
}

// The account of a message: the address, or 32 zero bytes of another form.
pub fn account(m: Message) -> [u8; 32]
    ensures { result ≡ account_of m }
{
    let form = m.form;
    match form {
        Form::Standard => {
            let address = m.address;
            address
        }
        Form::Other => [0u8; 32],
    }
}

// The fresh record, which stands where no message does.
pub fn blank() -> Message
    ensures { result ≡ blank_message }
{
    Message {
        kind: 0,
        special: false,
        form: Form::Standard,
        address: [0u8; 32],
        time: 0,
        hash: [0u8; 32],
    }
}

impl From<Refusal> for u8 {
    ghost from_gives = { λ r n. n ≡ refusal_number r };

    fn from(r: Refusal) -> u8 {
        match r {
            Refusal::SetUp => 1,
            Refusal::Special => 2,
            Refusal::WrongKind => 3,
            Refusal::Full => 4,
            Refusal::Crowded => 5,
            Refusal::NoTransaction => 6,
            Refusal::InTransaction => 7,
            Refusal::HoldsExternal => 8,
            Refusal::TooLarge => 9,
            Refusal::FewKeys => 10,
            Refusal::ManySkips => 11,
            Refusal::NumbersUsedUp => 12,
            Refusal::Overfull => 13,
            Refusal::ManySlots => 14,
            Refusal::SharedAccount => 15,
        }
    }
}

// The number of a code: 0 for done, or that of the refusal.
// stays: no `From`, for neither `Result` nor `u8` is a type of this crate.
pub fn number_of(c: Code) -> u8
    ensures { result ≡ number c }
{
    match c {
        Ok(()) => 0,
        Err(r) => u8::from(r),
    }
}
