// The calls on the host's table in document 01's form: thin functions on a `&mut` to it, over steps by value.
#![tactic(auto)]

pub mod calls; // calls.rt: the calls on a `&mut` to the table
pub mod steps; // steps.rt: each call as a step by value
