// Theorems alone: the columns that the entry of a fill makes hold the buffer, the group, the skipped set and the skip rows, on numbers.
#![tactic(auto)]
