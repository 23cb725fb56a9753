// The readers of a record's three parts: header, losses, edits. None fills a table. Each answers what it took with
// the place where the rest begins, or the refusal.
#![tactic(auto)]

pub mod edit_reader; // edit_reader.rt: the edits, looked through
pub mod header_reader; // header_reader.rt: the four numbers that a record begins with
pub mod loss_reader; // loss_reader.rt: the loss sets, looked through
