// Questions on the live table, and the record so far as bytes: 19 first, and then the question on the record in the
// used part, as of any other carrier. Why each carrier has its own: carriers/src/lib.rt.
#![tactic(auto)]

pub mod asks; // asks.rt: questions on a `&` to the table
mod carrier; // carrier.rt: what a table reads as
