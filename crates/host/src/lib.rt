// What the entry points for hosts in C share. A host gives a seat and a time as numbers of 32 bits, so that none is cut on the way,
// and gets each answer as a struct of C with the refusal's number in it.
#![tactic(auto)]

pub mod numbers; // numbers.rt: numbers of a host, made small enough for the library
pub mod results; // results.rt: answers as a host gets them
