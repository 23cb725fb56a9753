// The lines of an accepted record: of a place, of all seats at a time, of all times. Each is put where
// the page ends so far, and the answer is where it ends then.
ghost use Rattle.std.specs.Prelude.{◌≡◌, suc, ◌+◌, ◌≤◌, length};
ghost use Rattle.farm.specs.Sets.{bit};
ghost use Rattle.viewing.specs.Counts.{farm_in};
ghost use Rattle.text.specs.Putting.{PutsWithin};
ghost use Rattle.lines.specs.Printing.{line_room};
ghost use Rattle.time_lines.specs.Places.{lines_at, lines_of};
ghost use Rattle.time_lines.specs.Printing.{Ready, count_from, line_from, line_in, time_room, times_room};

use construction::known::known_sets;
use farm::places::{Seat, Time};
use farm::refusals::Refusal;
use farm::sets::holds;
use lines::printing::{PlaceLine, over_line, place_line};
use questions::agreed::ask_agreed;
use questions::answers::Agreed;
use telling::edit_places::EditPlaces;
use viewing::farms::Farm;

// The numbers of the line of a place that is not refused.
fn line_of(place: Agreed, seats: u8, time: Time, seat: Seat, loser: bool) -> PlaceLine
    ensures { result ≡ line_from place seats time seat loser }
{
    let core = place.latest;
    PlaceLine {
        time,
        seat,
        loser,
        critical: place.summary.critical,
        steps: place.summary.steps,
        seats,
        core,
        count: place.count,
    }
}

// The line of a seat at a time, from what was asked of its place.
fn put_line(
    place: Result<Agreed, Refusal>,
    seats: u8,
    losers: u16,
    time: Time,
    seat: Seat,
    out: &mut [u8],
    at: usize,
) -> usize
    requires { at + line_room ≤ length out.old }
    ensures { PutsWithin line_room (line_in place seats time seat (bit losers seat.0)) at out.old out.new result }
{
    let loser = holds(losers, seat);
    let Ok(agreed) = place else {
        return over_line(time, seat, loser, out, at).unwrap();
    };
    let line = line_of(agreed, seats, time, seat, loser);
    place_line(line, out, at).unwrap()
}

// The lines of a time, seat by seat. What is asked of a place depends there on the seat's known set alone,
// so that it is worked out again only where the known set is not that of the seat before.
fn put_seats(
    farm: Farm,
    edits: EditPlaces,
    losers: u16,
    time: Time,
    out: &mut [u8],
    at: usize,
) -> usize
    requires { Ready farm edits losers × (time.0 ≤ farm.sizes.rounds) × (at + time_room ≤ length out.old) }
    ensures { PutsWithin time_room (lines_at (farm_in farm.entry) (count_from edits.entry.editors.now edits.entry.times.now) time farm.entry.sizes.seats) at out.old out.new result }
{
    let seats = farm.sizes.seats;
    let known = known_sets(farm, time);
    let sets = known.of;
    let mut place = ask_agreed(farm, edits, Seat(0), time);
    let mut shared = sets[0];
    let mut end = at;
    for seat in 0..seats {
        let set = sets[seat as usize];
        if set != shared {
            place = ask_agreed(farm, edits, Seat(seat), time);
            shared = set;
        }
        end = put_line(place, seats, losers, time, Seat(seat), out, end);
    }
    end
}

// The lines of all times, from 0 to the last.
pub fn put_times(farm: Farm, edits: EditPlaces, losers: u16, out: &mut [u8], at: usize) -> usize
    requires { Ready farm edits losers × (at + times_room ≤ length out.old) }
    ensures { PutsWithin times_room (lines_of (farm_in farm.entry) (count_from edits.entry.editors.now edits.entry.times.now) (suc farm.entry.sizes.rounds)) at out.old out.new result }
{
    let mut end = at;
    for time in 0..=farm.sizes.rounds {
        end = put_seats(farm, edits, losers, Time(time), out, end);
    }
    end
}
