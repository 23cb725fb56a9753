// What is settled at a place of an accepted record, for a question that wants room in a lent buffer: 8, 7, 9.
ghost use Rattle.viewing.specs.Counts.{farm_in};
ghost use Rattle.questions.specs.Question.{buffer, settled_in};
ghost use Rattle.questions.specs.Accepted.{Accepted, Settles};

use crate::views::is_place;
use construction::settled::{Settled, settle};
use farm::places::{Seat, Time};
use farm::refusals::Refusal;
use viewing::farms::Farm;

// An answer by value wants no room.
#[tactic(auto, unfolding(crate::specs::Question::is_place, crate::specs::Question::provided, crate::specs::Question::fits, crate::specs::Question::settled_in))]
pub fn settle_at(
    farm: Farm,
    seat: Seat,
    time: Time,
    room: usize,
    need: usize,
) -> Result<Settled, Refusal>
    requires { Accepted farm.sizes }
    ensures { Settles farm.entry.sizes.seats (settled_in (buffer room) need (farm_in farm.entry) seat time) result }
{
    if !is_place(farm.sizes, seat, time) {
        return Err(Refusal::NoSuchPlace);
    }
    if room < need {
        return Err(Refusal::NoRoom);
    }
    settle(farm, seat, time)
}
