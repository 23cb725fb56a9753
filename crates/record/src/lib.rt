// What a record is: its types, its rules over any limits, and their laws. Document 01, "The record". Nothing here
// knows views. The code that reads and writes records stands on this crate.
#![tactic(auto)]

pub mod changes; // changes.rt: a change of height as a number
pub mod edits; // edits.rt: an edit, and the order of edits
pub mod header; // header.rt: seats, bound, rounds and count of edits
pub mod lists; // lists.rt: a record as lent lists
pub mod losses; // losses.rt: a good loss set
