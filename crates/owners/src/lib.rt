// The column of owners packed by itself: each owner that is a place moves up, and the freed cells are fresh.
#![tactic(auto)]

ghost use Rattle.std.specs.Prelude.{◌≤◌};
ghost use Rattle.columns.specs.Laid.{Packs, packed, held};

// Packs the column of owners by itself: no owner is read after it was written over.
pub fn pack_owners(owner: &mut [u16; 2048], n: usize) -> usize
    requires { n ≤ 1024 }
    ensures { Packs (held owner.old) n (packed 0 (held owner.old) n owner.old) owner.new result }
{
    let mut w: usize = 0;
    for i in 0..n {
        let o = owner[i];
        if packing::is_place(o) {
            owner[w] = o;
            w += 1;
        }
    }
    cells::clear(owner, w, n - w, 0);
    w
}
