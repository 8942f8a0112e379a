// A fill. It hands what the buffer, the group and the set hold to the fill by value (crate `filling`), and encloses what comes back.
ghost use Rattle.fill_rules.specs.Fills.{keys, Fills};
ghost use Rattle.lintelsong.specs.Closed.{GoodBuffer, GoodGroup, GoodSet, call_on, says_in, left_in, MeetsDemand3};

use crate::{Buffer, Group, Skipped};
use fill_answer::Asked;
use message::Code;

// What a fill answers: its code, how many messages it collected, its operations, how many messages it dropped; and the three as they are
// afterwards.
#[derive(Clone, Copy)]
pub struct FillAnswer {
    pub code: Code,
    pub collected: usize,
    pub operations: u64,
    pub dropped: usize,
    pub buffer: Buffer,
    pub group: Group,
    pub skipped: Skipped,
}

impl Buffer {
    // Fills a group from this buffer: codes 9 to 13. A skip row is a name of 32 bytes, a verdict (0 does not skip) and a cost; there are as many
    // as the shortest of the three lists has. A key row is a created_lt and a hash of 32 bytes. The second promise is demand 3 of the request.
    pub fn fill(
        self,
        group: Group,
        skipped: Skipped,
        asked: Asked,
        names: &[u8],
        verdicts: &[u8],
        costs: &[u64],
        lts: &mut [u64],
        hashes: &mut [u8],
    ) -> FillAnswer
        requires { GoodBuffer self × GoodGroup group × GoodSet skipped }
        ensures fills { Fills (call_on self group skipped asked names.now verdicts.now costs.now) (keys lts.old hashes.old) (says_in result) (left_in result (keys lts.new hashes.new)) }
        ensures meets_demand3 { MeetsDemand3 (call_on self group skipped asked names.now verdicts.now costs.now) (keys lts.old hashes.old) (says_in result) (left_in result (keys lts.new hashes.new)) }
    {
        let f = filling::fill(
            self.held,
            group.held,
            skipped.held,
            asked,
            names,
            verdicts,
            costs,
            lts,
            hashes,
        );
        let code = f.code;
        let packed = f.buffer;
        let grown = f.group;
        let wider = f.skipped;
        FillAnswer {
            code,
            collected: f.collected,
            operations: f.operations,
            dropped: f.dropped,
            buffer: Buffer { held: packed },
            group: Group { held: grown },
            skipped: Skipped { held: wider },
        }
    }
}
