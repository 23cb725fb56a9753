// Numbers as a host gives them. One that is too wide for the library becomes the largest that its type holds, which no record
// has: so it is refused as any other that is too large. Each width is one line, so one function for all of them would be no plainer.
ghost use Rattle.std.specs.Prelude.{◌≡◌};
ghost use Rattle.host.specs.Numbers.{at_most};

use farm::places::{Seat, Time};

#[repr(C)]
#[derive(Clone, Copy)]
pub struct SeatNumber(pub u32);

#[repr(C)]
#[derive(Clone, Copy)]
pub struct TimeNumber(pub u32);

#[tactic(auto, unfolding(crate::specs::Numbers::at_most))]
pub fn byte_of(number: u32) -> u8
    ensures { result ≡ at_most 255 number }
{
    u8::try_from(number).unwrap_or(u8::MAX)
}

#[tactic(auto, unfolding(crate::specs::Numbers::at_most))]
pub fn short_of(number: u32) -> u16
    ensures { result ≡ at_most 65535 number }
{
    u16::try_from(number).unwrap_or(u16::MAX)
}

impl From<SeatNumber> for Seat {
    ghost from_gives = { λ number seat. seat ≡ record { 0 = at_most 255 number.0 } };

    fn from(number: SeatNumber) -> Seat {
        Seat(byte_of(number.0))
    }
}

impl From<TimeNumber> for Time {
    ghost from_gives = { λ number time. time ≡ record { 0 = at_most 65535 number.0 } };

    fn from(number: TimeNumber) -> Time {
        Time(short_of(number.0))
    }
}
