// Accounts and hashes named by a number: the number in the last 8 of 32 bytes, the greatest byte first, and 24 zero bytes in front.
ghost use Rattle.std.specs.Prelude.{◌≡◌};
ghost use Rattle.words.specs.Digits.{name_of, number_in};

// The 32 bytes that a number names.
pub fn name_of(n: u64) -> [u8; 32]
    ensures { result ≡ name_of n }
{
    let mut name = [0u8; 32];
    name[24..].copy_from_slice(&n.to_be_bytes());
    name
}

// The number in the last 8 of 32 bytes.
pub fn number_in(name: [u8; 32]) -> u64
    ensures { result ≡ number_in name }
{
    let [.., a, b, c, d, e, f, g, h] = name;
    u64::from_be_bytes([a, b, c, d, e, f, g, h])
}
