// Numbers and words as text, put at a place of a lent buffer one after the other.
#![tactic(auto)]

pub mod digits; // digits.rt: numbers in decimal
pub mod fields; // fields.rt: what follows in a line, a blank before it
pub mod words; // words.rt: words
