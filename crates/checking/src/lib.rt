// Whether bytes are a good record: one pass over them, without a table. Each reader hands the part after its own to
// the next one, where it stands.
#![tactic(auto)]

pub mod whole; // whole.rt: a whole record
