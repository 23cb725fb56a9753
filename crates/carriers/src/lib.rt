// What carries a record: bytes, lists, or the live table. A carrier is its reading, then the question on the accepted record; the law of
// that stands here, with the questions on what a carrier hands on. Each carrier has the six questions as functions of its own, since
// `EntryPoints` of `conditions` names every one by its contract. Over a question with a type parameter each would stand as the line or two that it is.
#![tactic(auto)]

pub mod carried; // carried.rt: the questions on what a carrier hands on
