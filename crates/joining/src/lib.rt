// A join by value: the columns of two groups are lent to the join (crate `merging`).
#![tactic(auto)]

ghost use Rattle.groups.specs.Groups.{GoodGroup};
ghost use Rattle.joining.specs.Joins.{Joins};

use groups::group::Group;
use message::Code;

// What a join answers: its code, and both groups afterwards.
// stays: what may not change: a refused join gives both groups back (`Joins`), so they stand beside the code.
#[derive(Clone, Copy)]
pub struct Joined {
    pub code: Code,
    pub left: Group,
    pub right: Group,
}

// Joins the right group to the left one: codes 14, 15, 12, in this order.
pub fn join(left: Group, right: Group) -> Joined
    requires { GoodGroup left × GoodGroup right }
    ensures { Joins left right result.code result.left result.right }
{
    let mut grown = left;
    let mut emptied = right;
    let code = merging::join(
        &mut grown.number,
        &mut grown.ints,
        &mut grown.exts,
        &mut grown.accounts,
        &mut grown.home,
        &mut grown.owner,
        &mut grown.kind,
        &mut grown.form,
        &mut grown.time,
        &mut grown.address,
        &mut grown.hash,
        &mut grown.buckets,
        &mut grown.numbers,
        &mut emptied.number,
        &mut emptied.ints,
        &mut emptied.exts,
        &mut emptied.accounts,
        &mut emptied.home,
        &mut emptied.owner,
        &mut emptied.kind,
        &mut emptied.form,
        &mut emptied.time,
        &mut emptied.address,
        &mut emptied.hash,
        &mut emptied.buckets,
        &mut emptied.numbers,
    );
    Joined {
        code,
        left: grown,
        right: emptied,
    }
}
