// What each seat has seen of the farm, from the losses alone. Document 01, "Views and the core", rule 1.
// Nothing here knows known sets, bytes or edits.
#![tactic(auto)]

pub mod farms; // farms.rt: a farm, what every question on views is asked of
pub mod losses; // losses.rt: which sends were lost, read from the table of loss sets
pub mod sets; // sets.rt: sets of seats, put together seat by seat
pub mod sizes; // sizes.rt: n, t and R
pub mod views; // views.rt: rule 1, what each seat has seen
