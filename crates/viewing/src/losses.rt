// Which sends were lost, read from the table of loss sets: for each round, and within it for each
// sender, the set of seats that the send did not reach. Past the table's end nothing was lost, so
// that no function here asks for a table of a certain length.
ghost use Rattle.std.specs.Prelude.{◌≡◌};
ghost use Rattle.knowledge.specs.Farm.{after};
ghost use Rattle.viewing.specs.Counts.{farm_in, is_lost, loss_set_in};

use crate::farms::Farm;
use farm::places::{Seat, Time};
use farm::sets::holds;

// The seats that a send did not reach, in the round that begins at the time.
pub fn loss_set(farm: Farm, begun: Time, sender: Seat) -> u16
    ensures { result ≡ loss_set_in farm.entry begun sender }
{
    let at = (begun.0 as usize) * (farm.sizes.seats as usize) + (sender.0 as usize);
    if farm.losses.len() <= at {
        return 0;
    }
    farm.losses[at]
}

// Whether a send was lost in the round that begins at the time.
#[tactic(auto, unfolding(knowledge::specs::Farm::lost_in))]
pub fn was_lost(farm: Farm, begun: Time, sender: Seat, receiver: Seat) -> bool
    ensures { result ≡ is_lost (farm_in farm.entry) (after begun) sender receiver }
{
    holds(loss_set(farm, begun, sender), receiver)
}
