// What each seat knows from its view: known sets, losers and the construction that settles the core.
// Document 01, "Views and the core", rules 2 to 6. Nothing here knows bytes or edits.
#![tactic(auto)]

pub mod known; // known.rt: rule 2, the seats that a view shows to have lost a send
pub mod losers; // losers.rt: losers and clean seats
mod sets; // sets.rt: the seats outside a set, and how many a set has
pub mod settled; // settled.rt: rules 3 to 6, the construction
