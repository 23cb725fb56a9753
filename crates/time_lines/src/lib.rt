// The page's lines of a time, seat by seat, and of all times of an accepted record. At each time a known set is settled once
// for the seats in a row that share it.
#![tactic(auto)]

pub mod places; // places.rt: the line of a place, the lines of a time and of all times
