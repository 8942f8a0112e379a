// The skipped set for C and Rust: a closed struct behind a reference, and every call on it. Each call lends the fields to one function of
// crate `skipped_cores`. `set_up` takes any memory and makes it well formed; every other call asks for a well formed set and leaves one. A test
// answers 1 or 0.
#![tactic(auto)]

ghost use Rattle.std.specs.Prelude.{◌≡◌, [], length};
ghost use Rattle.rules.specs.World.{nth};
ghost use Rattle.rules.specs.Queues.{is_in};
ghost use Rattle.message.specs.Real.{Real};
ghost use Rattle.message.specs.Seen.{seen_account};
ghost use Rattle.export_parts.specs.Parts.{bit, Told};
ghost use Rattle.export_skipped.specs.Held.{GoodSet, accounts_in};

// A set of at most 512 accounts that fills pass over.
#[repr(C)]
#[derive(Clone, Copy)]
pub struct Skipped {
    accounts: [u8; 16384],
    held: usize,
}

const _: () = prove!(size_of::<Skipped>() == 16392 && align_of::<Skipped>() == 8);

// Makes a set of no accounts in any memory. Answers 0.
#[unsafe(no_mangle)]
pub extern "C" fn lintelsong_skipped_set_up(s: &mut Skipped) -> u8
    ensures { (result ≡ 0) × GoodSet s.new × (accounts_in s.new ≡ []) }
{
    skipped_cores::set_up(&mut s.accounts, &mut s.held)
}

// How many accounts it holds.
#[unsafe(no_mangle)]
pub extern "C" fn lintelsong_skipped_len(s: &mut Skipped) -> u64
    requires { GoodSet s.old }
    ensures { (result ≡ length (accounts_in s.old)) × (s.new ≡ s.old) }
{
    skipped_cores::len(&s.held)
}

// Whether it holds an account.
#[unsafe(no_mangle)]
pub extern "C" fn lintelsong_skipped_contains(s: &mut Skipped, name: &[u8; 32]) -> u8
    requires { GoodSet s.old }
    ensures { (result ≡ bit (is_in Real name.now (accounts_in s.old))) × (s.new ≡ s.old) }
{
    skipped_cores::contains(&s.accounts, &s.held, name)
}

// Writes the account at a position, in the order in which they joined, and answers 1; past the end it writes zeros and answers 0.
#[unsafe(no_mangle)]
pub extern "C" fn lintelsong_skipped_account_at(
    s: &mut Skipped,
    out: &mut [u8; 32],
    position: u64,
) -> u8
    requires { GoodSet s.old }
    ensures { Told result out.new (seen_account (nth position (accounts_in s.old))) × (s.new ≡ s.old) }
{
    skipped_cores::account_at(&s.accounts, &s.held, out, position)
}
