// Cells of a lent column copied and cleared, whatever the width of a cell.
#![tactic(auto)]

ghost use Rattle.std.specs.Prelude.{◌≡◌, ◌+◌, ◌≤◌, length, take, drop, replicate};
ghost use Rattle.columns.specs.Laid.{laid_at};

// Copies n cells from `from` on to the cells from `to` on. The two places may overlap: what is copied is what stood there before.
pub fn copy<T: Copy>(col: &mut [T], from: usize, to: usize, n: usize)
    requires { (from + n ≤ length col.old) × (to + n ≤ length col.old) }
    ensures { col.new ≡ laid_at to (take n (drop from col.old)) col.old }
{
    col.copy_within(from..from + n, to);
}

// Makes n cells from `from` on hold `blank`.
pub fn clear<T: Copy>(col: &mut [T], from: usize, n: usize, blank: T)
    requires { from + n ≤ length col.old }
    ensures { col.new ≡ laid_at from (replicate n blank) col.old }
{
    for cell in &mut col[from..from + n] {
        *cell = blank;
    }
}
