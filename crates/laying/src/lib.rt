// The front of one column laid over another: as it is, raised by a number, or numbers counted up.
#![tactic(auto)]

ghost use Rattle.std.specs.Prelude.{◌≡◌, ℕ, map, ◌+◌, ◌<◌, ◌≤◌, length, get_or, take};
ghost use Rattle.columns.specs.Lists.{tab_i};
ghost use Rattle.columns.specs.Laid.{laid_at};
ghost use Rattle.laying.specs.Laying.{Lays};

use std::ops::Add;

// Lays the first n cells of `from` over the cells from `to` on.
pub fn lay<T: Copy>(col: &mut [T], to: usize, from: &[T], n: usize)
    requires { Lays to n (length from.now) (length col.old) }
    ensures { col.new ≡ laid_at to (take n from.now) col.old }
{
    // A `for` and no `copy_from_slice`, with which the archive of the join asks for `memmove` from outside.
    for (i, x) in from[..n].iter().enumerate() {
        col[to + i] = *x;
    }
}

// The same, each cell raised by a number: f is what the type's sum makes of a cell.
pub fn raise<T: Copy + Add<Output = T>>(col: &mut [T], to: usize, from: &[T], n: usize, by: T)
    requires fits { Lays to n (length from.now) (length col.old) }
    requires low { (i : ℕ) (d : T) → i < n → T.can_add (get_or from.now i d) by }
    ensures { (f : T → T) → ((x sum : T) → T.add_gives x by sum → sum ≡ f x) → col.new ≡ laid_at to (map f (take n from.now)) col.old }
{
    for (i, x) in from[..n].iter().enumerate() {
        col[to + i] = *x + by;
    }
}

// Lays the n numbers from `first` on over the cells from `to` on.
pub fn count_up(col: &mut [u16], to: usize, n: usize, first: usize)
    requires { (to + n ≤ length col.old) × (first + n ≤ 65536) }
    ensures { col.new ≡ laid_at to (tab_i n first (λ k. k)) col.old }
{
    for (i, cell) in col[to..to + n].iter_mut().enumerate() {
        *cell = (first + i) as u16;
    }
}
