// Writing a record from lists into a lent buffer. The lists are judged first and the room is tested last, so that a
// refusal has touched nothing when the first byte is put.
#![tactic(auto)]

pub mod accepted; // accepted.rt: lists that were judged to be a good record
mod counting; // counting.rt: how many bytes accepted lists take
pub mod lists; // lists.rt: a record from lists, with its refusals
mod putting; // putting.rt: the bytes of accepted lists, put one after the other
