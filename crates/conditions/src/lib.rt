// The customer's three conditions in one place, as one statement about what the library answers: see specs/ and
// proofs/. There is no code here.
#![tactic(auto)]
