// The lines of the lister's page, each made in a buffer that the caller lends. Document 01,
// "The lister's page". Nothing here reads records or asks questions: a line is made from its numbers.
#![tactic(auto)]

pub mod printing; // printing.rt: the lines of the page
