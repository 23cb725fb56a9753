// The lists of a host as the library takes them. A number that is too wide becomes the largest that fits, which no record has.
ghost use Rattle.std.specs.Prelude.{◌≡◌};
ghost use Rattle.carriers.specs.Loading.{lists_read, reading_in};

use host::numbers::{byte_of, short_of};
use record::lists::Lists;

pub fn lists_given<'a>(
    seats: u32,
    bound: u32,
    rounds: u32,
    losses: &'a [u16],
    editors: &'a [u8],
    times: &'a [u16],
    cells: &'a [u32],
    changes: &'a [i16],
) -> Lists<'a>
    ensures { reading_in result ≡ lists_read seats bound rounds losses.now editors.now times.now cells.now changes.now }
{
    Lists {
        seats: byte_of(seats),
        bound: byte_of(bound),
        rounds: short_of(rounds),
        losses,
        editors,
        times,
        cells,
        changes,
    }
}
