// The live table: a farm's record while it is played. The host keeps one table in its memory, and every
// call tests it before it adds to it.
#![tactic(auto)]

mod answering; // answering.rt: the tests of a round and of an edit, in their order
pub mod answers; // answers.rt: what a step hands back
pub mod places; // places.rt: each call on a table, judged and stored in place
