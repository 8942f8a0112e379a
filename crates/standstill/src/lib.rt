// Whether a fill has nothing to do: it opens no slot, no slot is listed below the height, the filter is off, and the order has an account.
// Such a fill costs one operation per account and changes nothing, so it ends before its entry.
#![tactic(auto)]

ghost use Rattle.std.specs.Prelude.{◌≡◌};
ghost use Rattle.standstill.specs.Idle.{idle_c};

use message::Filter;

// Whether a fill that is to open `opens` slots stands still, `places` accounts being in the order. With no account a fill clears the minimum;
// with the filter on its end passes over the whole order.
pub fn idle(places: u64, opens: usize, height: usize, filter: Filter, buckets: [u32; 1088]) -> bool
    ensures { result ≡ idle_c places opens height filter buckets }
{
    if places == 0 {
        return false;
    }
    if opens != 0 {
        return false;
    }
    match filter {
        Filter::Off => buckets::none_below(&buckets, height),
        Filter::Below(_) => false,
    }
}
