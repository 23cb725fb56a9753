// The live table, for hosts in C, which keep it in their own memory: include/ricecrock.h declares these functions. Each hands the
// table on to the function beneath it: no table is copied.
#![tactic(auto)]

pub mod asks; // asks.rt: questions on the table, and the record so far
pub mod calls; // calls.rt: the calls that change the table
