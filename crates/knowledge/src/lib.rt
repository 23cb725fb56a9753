// The rules of document 01, "Views and the core", and the theory of them: see specs/ and proofs/. The code that
// computes them is in the crates viewing and construction. Nothing here knows bytes or edits.
#![tactic(auto)]
