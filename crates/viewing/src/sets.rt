// Sets of seats, put together seat by seat from the lowest up.
ghost use Rattle.std.specs.Prelude.{◌≡◌, cond, ◌+◌, ◌^◌, ◌<◌};
ghost use Rattle.farm.specs.Limits.{limits};

use farm::places::Seat;

// A set of seats below one, with that seat or without it.
pub fn with_seat(set: u16, seat: Seat, member: bool) -> u16
    requires { (seat.0 < limits.most_seats) × (set < 2 ^ seat.0) }
    ensures { result ≡ set + cond member (2 ^ seat.0) 0 }
{
    let s = seat.0;
    if member { set + (1u16 << s) } else { set }
}
