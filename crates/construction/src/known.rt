// Rule 2 of document 01: which seats a view shows to have lost a send.
#![tactic(auto, using(crate::proofs::KnownSteps::known_steps))]

ghost use Rattle.std.specs.Prelude.{◌≡◌, ◌≤◌, ◌<◌};
ghost use Rattle.farm.specs.Limits.{limits};
ghost use Rattle.knowledge.specs.Known.{known_in, known_of};
ghost use Rattle.viewing.specs.Counts.{counts, held, farm_in, seat_view};
ghost use Rattle.construction.specs.KnownSets.{known_sets, is_lost_before, is_missed};

use farm::places::{Seat, Time};
use viewing::farms::Farm;
use viewing::losses::was_lost;
use viewing::sets::with_seat;
use viewing::views::{ROOM, TABLE, seat_view, view_of, views_at};

// The known sets of all seats' views at one time, 0 for every seat from n on. A set is no count, so this is no `Counts`.
#[derive(Clone, Copy)]
pub struct KnownSets {
    pub of: [u16; ROOM],
}

// Whether a send of z to q was lost in a round that ends before the count.
fn missed_at(farm: Farm, z: Seat, q: Seat, count: u16) -> bool
    ensures { result ≡ is_lost_before (farm_in farm.entry) z q count }
{
    (1..count).any(
        |r|
            requires { 1 ≤ r }
        { was_lost(farm, Time(r - 1), z, q) },
    )
}

// Whether a send of z into a place of the view was lost.
fn missed_in(farm: Farm, view: &[u16; ROOM], z: Seat) -> bool
    requires { farm.sizes.seats ≤ limits.most_seats }
    ensures { result ≡ is_missed (farm_in farm.entry) (held view.now) z }
{
    (0..farm.sizes.seats).any(
        |q|
            requires { q < limits.most_seats }
        { missed_at(farm, z, Seat(q), view[q as usize]) },
    )
}

// The known set of a view.
#[tactic(auto, using(crate::proofs::KnownSteps::known_steps), unfolding(knowledge::specs::Known::known_in))]
pub fn known_in(farm: Farm, view: &[u16; ROOM]) -> u16
    requires { farm.sizes.seats ≤ limits.most_seats }
    ensures { result ≡ known_in (farm_in farm.entry) (held view.now) }
{
    let mut set: u16 = 0;
    for z in 0..farm.sizes.seats {
        set = with_seat(set, Seat(z), missed_in(farm, view, Seat(z)));
    }
    set
}

// The known set of a place's view.
pub fn known_of(farm: Farm, seat: Seat, time: Time) -> u16
    requires { (farm.sizes.seats ≤ limits.most_seats) × (seat.0 < farm.sizes.seats) × (time.0 ≤ limits.most_rounds) }
    ensures { result ≡ known_of (farm_in farm.entry) seat time }
{
    let view = view_of(farm, seat, time);
    known_in(farm, &view.of)
}

// The known set of one seat's view in a table of all views.
fn known_at(farm: Farm, views: &[u16; TABLE], seat: Seat) -> u16
    requires { (farm.sizes.seats ≤ limits.most_seats) × (seat.0 < limits.most_seats) }
    ensures { result ≡ known_in (farm_in farm.entry) (seat_view views.now seat) }
{
    let view = seat_view(views, farm.sizes.seats, seat);
    known_in(farm, &view.of)
}

// The known sets of all seats' views at a time, from one pass of the views.
#[tactic(auto, using(crate::proofs::KnownSteps::known_steps), unfolding(viewing::specs::Counts::counts))]
pub fn known_sets(farm: Farm, time: Time) -> KnownSets
    requires { (farm.sizes.seats ≤ limits.most_seats) × (time.0 ≤ limits.most_rounds) }
    ensures { result.of ≡ counts farm.entry.sizes.seats (known_sets (farm_in farm.entry) time) }
{
    let views = views_at(farm, time);
    let mut sets: [u16; ROOM] = [0; ROOM];
    for p in 0..farm.sizes.seats {
        sets[p as usize] = known_at(farm, &views.of, Seat(p));
    }
    KnownSets { of: sets }
}
