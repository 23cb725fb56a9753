// What is told out of counts: for each seat the latest time, and which edits a core holds.
#![tactic(auto)]

pub mod edit_places; // edit_places.rt: the places of all edits, handed on together
pub mod marks; // marks.rt: which edits are in a core
pub mod times; // times.rt: views as they are given, the latest time of each seat
