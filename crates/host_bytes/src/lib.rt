// A record as bytes, for hosts in C: include/ricecrock.h declares these functions.
#![tactic(auto)]

pub mod asks; // asks.rt: the questions
pub mod records; // records.rt: whether it is good, its lists, its page
