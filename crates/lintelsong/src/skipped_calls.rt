// The calls on a skipped set. Each hands what the set holds to the call of that name in crate `skipped`, and encloses what comes back.
ghost use Rattle.std.specs.Prelude.{◌≡◌, [], length};
ghost use Rattle.rules.specs.World.{nth};
ghost use Rattle.rules.specs.Queues.{is_in};
ghost use Rattle.message.specs.Real.{Real};
ghost use Rattle.message.specs.Seen.{seen_account};
ghost use Rattle.lintelsong.specs.Closed.{GoodSet, accounts_in};

use crate::Skipped;

impl Skipped {
    // A set of no accounts.
    pub fn fresh() -> Skipped
        ensures { GoodSet result × (accounts_in result ≡ []) }
    {
        let held = skipped::Skipped::fresh();
        Skipped { held }
    }

    // How many accounts it holds.
    pub fn len(self) -> usize
        requires { GoodSet self }
        ensures { result ≡ length (accounts_in self) }
    {
        self.held.len()
    }

    // Whether it holds an account.
    pub fn contains(self, name: [u8; 32]) -> bool
        requires { GoodSet self }
        ensures { result ≡ is_in Real name (accounts_in self) }
    {
        self.held.contains(name)
    }

    // The account at a position, in the order in which they joined; none past the end.
    pub fn account_at(self, position: usize) -> Option<[u8; 32]>
        requires { GoodSet self }
        ensures { result ≡ seen_account (nth position (accounts_in self)) }
    {
        self.held.account_at(position)
    }
}
