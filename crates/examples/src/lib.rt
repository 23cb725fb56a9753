// Document 01, "Proved examples": P1 to P12 as one table under one statement: see specs/ and proofs/. There is no
// code here.
#![tactic(auto)]
