// Losers and clean seats: who lost a send in any of the rounds up to a time, or of the whole record.
#![tactic(auto, using(crate::proofs::KnownSteps::known_steps), unfolding(knowledge::specs::Farm::losers_by))]

ghost use Rattle.std.specs.Prelude.{◌≡◌, ◌≤◌, ◌<◌};
ghost use Rattle.farm.specs.Limits.{limits};
ghost use Rattle.knowledge.specs.Farm.{after, losers_by};
ghost use Rattle.viewing.specs.Counts.{farm_in};
ghost use Rattle.construction.specs.KnownSets.{is_loser_in, is_loser_by, is_loser};

use farm::places::{Seat, Time};
use viewing::farms::Farm;
use viewing::losses::{loss_set, was_lost};
use viewing::sets::with_seat;

// Whether a send of z was lost in the round that begins at the time. An empty loss set says at once that it was not.
fn loses_in(farm: Farm, begun: Time, z: Seat) -> bool
    ensures { result ≡ is_loser_in (farm_in farm.entry) (after begun) z }
{
    loss_set(farm, begun, z) != 0
        && (0..farm.sizes.seats).any(|q| was_lost(farm, begun, z, Seat(q)))
}

// Whether a send of z was lost in the rounds up to the time.
fn loses_by(farm: Farm, time: Time, z: Seat) -> bool
    ensures { result ≡ is_loser_by (farm_in farm.entry) time z }
{
    (0..time.0).any(|k| loses_in(farm, Time(k), z))
}

// The losers by a time.
pub fn losers_by(farm: Farm, time: Time) -> u16
    requires { farm.sizes.seats ≤ limits.most_seats }
    ensures { result ≡ losers_by (farm_in farm.entry) time }
{
    let mut set: u16 = 0;
    for z in 0..farm.sizes.seats {
        set = with_seat(set, Seat(z), loses_by(farm, time, Seat(z)));
    }
    set
}

// Whether a seat is a loser of the whole record; every other seat is clean.
pub fn is_loser(farm: Farm, seat: Seat) -> bool
    requires { seat.0 < farm.sizes.seats }
    ensures { result ≡ is_loser (farm_in farm.entry) seat }
{
    loses_by(farm, Time(farm.sizes.rounds), seat)
}
