// What the end of a fill makes of the columns, and the laws of what its loops lay: cells and rows copied by row numbers, keys gathered, the
// numbers of buffer and group. The code stands in `collecting`, `telling`, `holders`, `leftover` and `buffer_end`.
#![tactic(auto)]
