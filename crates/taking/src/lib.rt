// How many bytes a program takes from standard input, and what follows each read.
#![tactic(auto)]

pub mod reads; // reads.rt: what follows an answer of `read`
