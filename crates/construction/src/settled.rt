// Rules 3 to 6 of document 01: the construction. It begins with the known set of the asking seat's own
// view, and takes step after step, each from the last, to the first that changes nothing.
#![tactic(auto, using(crate::proofs::SettleSteps::settle_steps))]

ghost use Rattle.std.specs.Prelude.{◌≡◌, ◌+◌, ◌-◌, ◌≤◌, ◌<◌, pos, ◌-ℤ◌};
ghost use Rattle.farm.specs.Limits.{limits};
ghost use Rattle.farm.specs.Sets.{size};
ghost use Rattle.viewing.specs.Counts.{counts, farm_in};
ghost use Rattle.knowledge.specs.Settled.{outcome_of};
ghost use Rattle.construction.specs.Answers.{core_at, settled_from, Shrinks, settled_for, answer_for};

use crate::known::{known_in, known_of};
use crate::sets::{seats_outside, size_of};
use farm::places::{Seat, Time};
use farm::refusals::Refusal;
use viewing::farms::Farm;
use viewing::sizes::Sizes;
use viewing::views::{Counts, ROOM, view_of_set};

// Rule 5: the count of steps, the critical time, which may be below 0, the kept set and the core.
#[derive(Clone, Copy)]
pub struct Settled {
    pub steps: u8,
    pub critical: i16,
    pub kept: u16,
    pub core: Counts,
}

// How far the critical time lies back, t + 1 - |B| rounds.
fn delay(sizes: Sizes, known: u16) -> u16
    requires { (sizes.seats ≤ limits.most_seats) × (size sizes.seats known ≤ sizes.bound) }
    ensures { result ≡ sizes.bound + 1 - size sizes.seats known }
{
    (sizes.bound as u16) + 1 - (size_of(known, sizes.seats) as u16)
}

// The time that lies back from another; it may be below 0.
fn time_back(time: Time, delay: u16) -> i16
    requires { (time.0 ≤ limits.most_rounds) × (delay ≤ 256) }
    ensures { result ≡ pos time.0 -ℤ pos delay }
{
    (time.0 as i16) - (delay as i16)
}

// The view of all seats outside the known set at the critical time that follows from it.
fn core_view(farm: Farm, time: Time, known: u16) -> Counts
    requires { (farm.sizes.seats ≤ limits.most_seats) × (time.0 ≤ limits.most_rounds) × (size farm.sizes.seats known ≤ farm.sizes.bound) }
    ensures { result.of ≡ counts farm.entry.sizes.seats (core_at (farm_in farm.entry) time known) }
{
    let back = delay(farm.sizes, known);
    if time.0 < back {
        return Counts { of: [0; ROOM] };
    }
    let trusted = seats_outside(known, farm.sizes.seats);
    view_of_set(farm, trusted, Time(time.0 - back))
}

// The steps from a known set on: where the next known set is the same, they are done.
fn settle_from(farm: Farm, time: Time, steps: u8, known: u16) -> Settled
    requires seats_le_most_seats { (farm.sizes.seats ≤ limits.most_seats) × (farm.sizes.bound < farm.sizes.seats) × (time.0 ≤ limits.most_rounds) × (steps + size farm.sizes.seats known ≤ 255) }
    requires shrinks { Shrinks (farm_in farm) time known }
    ensures { result ≡ settled_for farm.entry.sizes.seats (settled_from (farm_in farm.entry) time (size farm.entry.sizes.seats known) steps known) }
{
    let core = core_view(farm, time, known);
    let next = known_in(farm, &core.of);
    if next == known {
        let critical = time_back(time, delay(farm.sizes, known));
        return Settled {
            steps,
            critical,
            kept: known,
            core,
        };
    }
    settle_from(farm, time, steps + 1, next)
}

// What a seat gets at a time; of the refusals only OverBound (9) is given here.
pub fn settle(farm: Farm, seat: Seat, time: Time) -> Result<Settled, Refusal>
    requires { (farm.sizes.seats ≤ limits.most_seats) × (farm.sizes.bound < farm.sizes.seats) × (seat.0 < farm.sizes.seats) × (time.0 ≤ limits.most_rounds) }
    ensures { result ≡ answer_for farm.entry.sizes.seats (outcome_of (farm_in farm.entry) seat time) }
{
    let known = known_of(farm, seat, time);
    if farm.sizes.bound < size_of(known, farm.sizes.seats) {
        return Err(Refusal::OverBound);
    }
    Ok(settle_from(farm, time, 1, known))
}
