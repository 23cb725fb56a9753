// A good loss set. The readers of bytes and the judge of lists both ask here.
ghost use Rattle.std.specs.Prelude.{◌≡◌, ◌<◌};
ghost use Rattle.record.specs.Losses.{good_set};

use farm::places::Seat;
use farm::sets::holds;

// Whether a set has no bit at the number of seats or above, and not the sender's own.
pub fn good_set(seats: u8, sender: Seat, set: u32) -> bool
    requires { seats < 16 }
    ensures { result ≡ good_set seats sender set }
{
    if (set >> seats) != 0 {
        return false;
    }
    !holds(set as u16, sender)
}
