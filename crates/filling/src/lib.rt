// The second pass over a record that the first one found good: its numbers into lent tables.
#![tactic(auto)]

pub mod fill; // fill.rt: a good record into tables
