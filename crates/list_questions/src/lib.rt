// Questions about a record given as lists: the refusals of lists, then 8, 7, 9. Why each carrier has its own: carriers/src/lib.rt.
#![tactic(auto)]

pub mod asks; // asks.rt: the questions
pub mod carrier; // carrier.rt: what lists read as
