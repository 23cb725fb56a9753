// Sets of seats: the seats outside one, and how many one has.
#![tactic(auto, using(crate::proofs::Turns::turns), unfolding(farm::specs::Sets::outside))]

ghost use Rattle.std.specs.Prelude.{◌≡◌, ◌≤◌};
ghost use Rattle.farm.specs.Limits.{limits};
ghost use Rattle.farm.specs.Sets.{outside, size};

use farm::places::Seat;
use farm::sets::holds;
use viewing::sets::with_seat;

// The seats that are not in the set.
pub fn seats_outside(set: u16, seats: u8) -> u16
    requires { seats ≤ limits.most_seats }
    ensures { result ≡ outside seats set }
{
    let mut out: u16 = 0;
    for q in 0..seats {
        out = with_seat(out, Seat(q), !holds(set, Seat(q)));
    }
    out
}

// How many seats are in the set.
pub fn size_of(set: u16, seats: u8) -> u8
    ensures { result ≡ size seats set }
{
    let mut members: u8 = 0;
    for q in 0..seats {
        if holds(set, Seat(q)) {
            members += 1;
        }
    }
    members
}
