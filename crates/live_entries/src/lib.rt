// The entries of the live table's lists: put in their place, and the last of the edits held.
#![tactic(auto)]

pub mod lists; // lists.rt: the functions on lists, of any length, at any place
pub mod table; // table.rt: the same on the lists of a table, behind what it holds
