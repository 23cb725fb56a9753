// A record as lists, for hosts in C: include/ricecrock.h declares these functions.
#![tactic(auto)]

pub mod asks; // asks.rt: the questions
mod given; // given.rt: the lists of a host as the library takes them
pub mod records; // records.rt: whether they are a good record, its length, its bytes
