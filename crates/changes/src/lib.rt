// The calls by value that change a buffer. Its columns are lent to one core, which copies nothing large.
#![tactic(auto)]

ghost use Rattle.std.specs.Prelude.{length, ◌/◌};
ghost use Rattle.rules.specs.Calls.{add_message, remove_accounts, begin as begin_by, commit as commit_by, rollback as rollback_by};
ghost use Rattle.columns.specs.Rows.{rows_of};
ghost use Rattle.message.specs.Real.{Real, offer};
ghost use Rattle.queues.specs.Meant.{meant};
ghost use Rattle.queues.specs.Append.{add_c};
ghost use Rattle.queues.specs.Compact.{remove_c};
ghost use Rattle.queues.specs.Transact.{begin_c, commit_c, rollback_c};
ghost use Rattle.buffers.specs.Buffers.{cols_of, GoodBuffer, Gives};

use buffers::buffer::{Answer, Buffer};
use message::Message;

// Adds a message to the end of its account's queue: codes 2 to 5.
pub fn add(buffer: Buffer, m: Message) -> Answer
    requires { GoodBuffer buffer }
    ensures { Gives (add_message Real (offer m) (meant (cols_of buffer))) (add_c m (cols_of buffer)) result.code result.buffer }
{
    let mut after = buffer;
    let code = append::add(
        m,
        &mut after.owner,
        &mut after.kind,
        &mut after.form,
        &mut after.time,
        &mut after.address,
        &mut after.hash,
        &mut after.accounts,
        &mut after.numbers,
    );
    Answer {
        code,
        buffer: after,
    }
}

// Removes the queues of the named accounts, 32 bytes a name: code 8 if one of them holds an external. Names without a queue, names given
// twice and bytes behind the last whole name do nothing.
pub fn remove(buffer: Buffer, names: &[u8]) -> Answer
    requires { GoodBuffer buffer }
    ensures { Gives (remove_accounts Real (rows_of (length names.now / 32) names.now) (meant (cols_of buffer))) (remove_c names.now (cols_of buffer)) result.code result.buffer }
{
    let mut after = buffer;
    let code = removal::remove(
        names,
        &mut after.owner,
        &mut after.kind,
        &mut after.form,
        &mut after.time,
        &mut after.address,
        &mut after.hash,
        &mut after.accounts,
        &mut after.numbers,
    );
    Answer {
        code,
        buffer: after,
    }
}

// Opens a transaction: code 7 if one is open.
pub fn begin(buffer: Buffer) -> Answer
    requires { GoodBuffer buffer }
    ensures { Gives (begin_by Real (meant (cols_of buffer))) (begin_c (cols_of buffer)) result.code result.buffer }
{
    let mut after = buffer;
    let code = transactions::begin(
        &mut after.owner,
        &mut after.kind,
        &mut after.form,
        &mut after.time,
        &mut after.address,
        &mut after.hash,
        &mut after.accounts,
        &mut after.numbers,
    );
    Answer {
        code,
        buffer: after,
    }
}

// Ends a transaction and leaves the buffer as it is: code 6 if none is open.
pub fn commit(buffer: Buffer) -> Answer
    requires { GoodBuffer buffer }
    ensures { Gives (commit_by Real (meant (cols_of buffer))) (commit_c (cols_of buffer)) result.code result.buffer }
{
    let mut after = buffer;
    let code = transactions::commit(&mut after.numbers);
    Answer {
        code,
        buffer: after,
    }
}

// Ends a transaction and gives back every queue, the order, the counts and the minimum as at begin: code 6 if none is open.
pub fn rollback(buffer: Buffer) -> Answer
    requires { GoodBuffer buffer }
    ensures { Gives (rollback_by Real (meant (cols_of buffer))) (rollback_c (cols_of buffer)) result.code result.buffer }
{
    let mut after = buffer;
    let code = transactions::rollback(
        &mut after.owner,
        &mut after.kind,
        &mut after.form,
        &mut after.time,
        &mut after.address,
        &mut after.hash,
        &mut after.accounts,
        &mut after.numbers,
    );
    Answer {
        code,
        buffer: after,
    }
}
