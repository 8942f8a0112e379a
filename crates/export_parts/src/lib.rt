// What the exports share: a test as a number, a message made of its parts, and an account and a message written out, the fresh ones where there
// are none.
#![tactic(auto)]

ghost use Rattle.std.specs.Prelude.{◌≡◌};
ghost use Rattle.export_parts.specs.Parts.{bit, Made, Told, Tells, ToldMessage};

use message::Message;

// A test as a number.
pub fn bit_of(test: bool) -> u8
    ensures { result ≡ bit test }
{
    u8::from(test)
}

// A message of these parts. A mark other than 0 is set; a form other than 0 is not the standard one.
pub fn message_of(
    to: &[u8; 32],
    hashed: &[u8; 32],
    sent: u64,
    sort: u8,
    special: u8,
    shape: u8,
) -> Message
    ensures { Made result to.now hashed.now sent sort special shape }
{
    Message {
        kind: sort,
        special: special != 0,
        form: records::form_of(shape),
        address: *to,
        time: sent,
        hash: *hashed,
    }
}

// Writes the parts of a message: its kind, its mark, its form and its time; its address; its hash.
pub fn tell(m: Message, facts: &mut [u64; 4], to: &mut [u8; 32], hashed: &mut [u8; 32])
    ensures { Tells m facts.new to.new hashed.new }
{
    let special = bit_of(m.special);
    let shape = records::form_byte(m.form);
    *facts = [
        u64::from(m.kind),
        u64::from(special),
        u64::from(shape),
        m.time,
    ];
    let address = m.address;
    *to = address;
    let hash = m.hash;
    *hashed = hash;
}

// Writes an account, zeros if there is none, and answers whether there is one.
pub fn tell_account(seen: Option<[u8; 32]>, out: &mut [u8; 32]) -> u8
    ensures { Told result out.new seen }
{
    let Some(account) = seen else {
        *out = [0u8; 32];
        return 0;
    };
    *out = account;
    1
}

// Writes the parts of a message, those of a fresh one if there is none, and answers whether there is one.
pub fn tell_message(
    seen: Option<Message>,
    facts: &mut [u64; 4],
    to: &mut [u8; 32],
    hashed: &mut [u8; 32],
) -> u8
    ensures { ToldMessage result facts.new to.new hashed.new seen }
{
    let Some(m) = seen else {
        tell(message::blank(), facts, to, hashed);
        return 0;
    };
    tell(m, facts, to, hashed);
    1
}
