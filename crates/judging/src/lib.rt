// Whether lists are a good record: what is asked before a record is written from them, and of a live table.
#![tactic(auto)]

pub mod lists; // lists.rt: the lists, test by test in document 01's order
