// What each export of a skipped set does, on lent fields: set-up, and each read with its answer in numbers. A test answers 1 or 0.
#![tactic(auto)]

ghost use Rattle.std.specs.Prelude.{◌≡◌, [], ◌*◌, ◌≤◌, length};
ghost use Rattle.rules.specs.World.{nth};
ghost use Rattle.rules.specs.Queues.{is_in};
ghost use Rattle.columns.specs.Rows.{rows_of};
ghost use Rattle.message.specs.Real.{Real};
ghost use Rattle.message.specs.Seen.{seen_account};
ghost use Rattle.skipped.specs.Sets.{GoodRows};
ghost use Rattle.export_parts.specs.Parts.{bit, Told};

pub fn set_up(accounts: &mut [u8; 16384], held: &mut usize) -> u8
    ensures { (result ≡ 0) × GoodRows held.new accounts.new × (rows_of held.new accounts.new ≡ []) }
{
    *accounts = [0u8; 16384];
    *held = 0;
    0
}

pub fn len(held: &usize) -> u64
    ensures { result ≡ held.now }
{
    *held as u64
}

pub fn contains(accounts: &[u8; 16384], held: &usize, name: &[u8; 32]) -> u8
    requires { GoodRows held.now accounts.now }
    ensures { result ≡ bit (is_in Real name.now (rows_of held.now accounts.now)) }
{
    let n = *held;
    let at = rows::find_row(accounts, n, name);
    export_parts::bit_of(at < n)
}

// The account in a row below those held; none past the end.
fn seen_at(accounts: &[u8; 16384], held: usize, position: u64) -> Option<[u8; 32]>
    requires { 32 * held ≤ length accounts.now }
    ensures { result ≡ seen_account (nth position (rows_of held accounts.now)) }
{
    if position < held as u64 {
        Some(rows::get_row(accounts, position as usize))
    } else {
        None
    }
}

pub fn account_at(accounts: &[u8; 16384], held: &usize, out: &mut [u8; 32], position: u64) -> u8
    requires { GoodRows held.now accounts.now }
    ensures { Told result out.new (seen_account (nth position (rows_of held.now accounts.now))) }
{
    let seen = seen_at(accounts, *held, position);
    export_parts::tell_account(seen, out)
}
