// A fill by value: the columns of a buffer, a group and a skipped set are lent to the fill (crate `fills`). The three are
// open here; callers from outside hold the closed ones of crate `lintelsong`.
#![tactic(auto)]

ghost use Rattle.buffers.specs.Buffers.{GoodBuffer};
ghost use Rattle.groups.specs.Groups.{GoodGroup};
ghost use Rattle.skipped.specs.Sets.{GoodSet};
ghost use Rattle.fill_rules.specs.Fills.{keys, Fills};
ghost use Rattle.filling.specs.Filling.{call_on, says_in, left_in};

use buffers::buffer::Buffer;
use fill_answer::Asked;
use groups::group::Group;
use message::Code;
use skipped::Skipped;

// What a fill answers: its code, how many messages it collected, its operations, how many messages it dropped; and the three as they are
// afterwards.
// stays: what may not change: a refused fill gives the three back (`Fills`), so they stand beside the code.
#[derive(Clone, Copy)]
pub struct Filled {
    pub code: Code,
    pub collected: usize,
    pub operations: u64,
    pub dropped: usize,
    pub buffer: Buffer,
    pub group: Group,
    pub skipped: Skipped,
}

// Fills a group from a buffer: codes 9 to 13.
pub fn fill(
    buffer: Buffer,
    group: Group,
    skipped: Skipped,
    asked: Asked,
    names: &[u8],
    verdicts: &[u8],
    costs: &[u64],
    lts: &mut [u64],
    hashes: &mut [u8],
) -> Filled
    requires { GoodBuffer buffer × GoodGroup group × GoodSet skipped }
    ensures { Fills (call_on buffer group skipped asked names.now verdicts.now costs.now) (keys lts.old hashes.old) (says_in result) (left_in result (keys lts.new hashes.new)) }
{
    let mut packed = buffer;
    let mut grown = group;
    let mut wider = skipped;
    let a = fills::fill(
        &mut packed.owner,
        &mut packed.kind,
        &mut packed.form,
        &mut packed.time,
        &mut packed.address,
        &mut packed.hash,
        &mut packed.accounts,
        &mut packed.numbers,
        &mut grown.number,
        &mut grown.ints,
        &mut grown.exts,
        &mut grown.accounts,
        &mut grown.home,
        &mut grown.owner,
        &mut grown.kind,
        &mut grown.form,
        &mut grown.time,
        &mut grown.address,
        &mut grown.hash,
        &mut grown.buckets,
        &mut grown.numbers,
        &mut wider.accounts,
        &mut wider.held,
        asked.slots,
        asked.height,
        asked.filter,
        names,
        verdicts,
        costs,
        asked.cost,
        lts,
        hashes,
    );
    Filled {
        code: a.code,
        collected: a.collected,
        operations: a.operations,
        dropped: a.dropped,
        buffer: packed,
        group: grown,
        skipped: wider,
    }
}
