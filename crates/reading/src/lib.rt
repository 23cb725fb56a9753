// Reading a record into lent tables. A record is looked through first and put into the tables after that, so that a
// refusal has touched nothing.
#![tactic(auto)]

pub mod tables; // tables.rt: a record into tables, with its refusals
