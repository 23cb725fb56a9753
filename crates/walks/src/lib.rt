// How a thin function over a reference to a struct is walked, for any struct and any further parameters: it takes the
// value, calls a step and puts its table back, or it lends the fields to a question. See proofs/. There is no code here.
#![tactic(auto)]
