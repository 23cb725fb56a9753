// Questions about a record given as bytes: the record's own refusals, then 8, 7, 9. Why each carrier has its own: carriers/src/lib.rt.
#![tactic(auto)]

pub mod asks; // asks.rt: the questions
mod loading; // loading.rt: what a question needs of a record's bytes
