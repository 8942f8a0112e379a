// Theorems alone: what the end of a fill leaves in the columns means what the rules say, by the renaming from numbers to bytes.
#![tactic(auto)]
