// The page of a record, whole, in a buffer that the caller lends. Document 01, "The lister's page". The
// record is read once.
#![tactic(auto)]

pub mod whole; // whole.rt: the page of a record given as bytes
