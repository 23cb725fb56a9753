// The live table: a farm's record while it is played, in the host's memory. The host may hand in anything, so whether its used part is
// a good record is tested before every answer.
#![tactic(auto)]

pub mod sound; // sound.rt: whether the used part of a table is a good record
pub mod table; // table.rt: the table itself
