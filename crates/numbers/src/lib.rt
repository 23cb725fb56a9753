// The seven-bit numbers of a record: one number read at a cursor, and one put into a buffer.
#![tactic(auto)]

pub mod read; // read.rt: a number at a cursor
pub mod write; // write.rt: how many bytes a number takes, and its bytes in a buffer
