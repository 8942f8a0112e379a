// Theorems alone: what the reads of crates `slots_seen`, `accounts_seen` and `messages_seen` see in well formed columns of a group is what the rules
// see in what they mean; and such columns are what the reads ask for.
#![tactic(auto)]
