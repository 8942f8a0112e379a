// The skipped set: accounts that fills pass over, at most 512. Its fields are open to the crates of this repository; callers from outside
// hold the closed one of crate `lintelsong`.
#![tactic(auto)]

ghost use Rattle.std.specs.Prelude.{◌≡◌, [], length};
ghost use Rattle.rules.specs.World.{nth};
ghost use Rattle.rules.specs.Queues.{is_in};
ghost use Rattle.message.specs.Real.{Real};
ghost use Rattle.message.specs.Seen.{seen_account};
ghost use Rattle.skipped.specs.Sets.{GoodSet, accounts_in};

#[derive(Clone, Copy)]
pub struct Skipped {
    pub accounts: [u8; 16384],
    pub held: usize,
}

impl Skipped {
    // A set of no accounts.
    pub fn fresh() -> Skipped
        ensures { GoodSet result × (accounts_in result ≡ []) }
    {
        Skipped {
            accounts: [0u8; 16384],
            held: 0,
        }
    }

    // How many accounts it holds.
    pub fn len(self) -> usize
        requires { GoodSet self }
        ensures { result ≡ length (accounts_in self) }
    {
        let count = self.held;
        count
    }

    // Whether it holds an account.
    pub fn contains(self, name: [u8; 32]) -> bool
        requires { GoodSet self }
        ensures { result ≡ is_in Real name (accounts_in self) }
    {
        let accounts = self.accounts;
        let held = self.held;
        rows::find_row(&accounts, held, &name) < held
    }

    // The account at a position, in the order in which they joined; none past the end.
    pub fn account_at(self, position: usize) -> Option<[u8; 32]>
        requires { GoodSet self }
        ensures { result ≡ seen_account (nth position (accounts_in self)) }
    {
        let accounts = self.accounts;
        let held = self.held;
        if position < held {
            Some(rows::get_row(&accounts, position))
        } else {
            None
        }
    }
}
