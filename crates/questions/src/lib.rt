// Questions about an accepted record. By value: what a seat has seen, what is agreed, how a seat stands. Into a lent
// buffer: the view, the core, the marks of the edits. A record as bytes, as lists or as a live table is asked by way of
// the crates above.
#![tactic(auto)]

pub mod agreed; // agreed.rt: what is agreed at a place
pub mod answers; // answers.rt: what a question answers
pub mod cores; // cores.rt: the core
pub mod marks; // marks.rt: which edits are in a core
mod settling; // settling.rt: what is settled at a place, with the refusals before it
pub mod views; // views.rt: what a seat has seen, and how it stands
