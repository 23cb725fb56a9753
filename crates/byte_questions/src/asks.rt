// The questions on a record given as bytes. The order of refusals: the record's own, 8, 7, 9.
ghost use Rattle.std.specs.Prelude.{◌≡◌};
ghost use Rattle.record.specs.Document.{reading_of};
ghost use Rattle.questions.specs.Question.{view_asked, core_asked, marks_asked, loser_asked};
ghost use Rattle.questions.specs.Answers.{Fills, standing_answer, seen_asked, agreed_asked};

use crate::loading::{EMPTY, read_places};
use carriers::carried::{agreed_in, core_in, marks_in, seen_in, standing_in, view_in};
use farm::places::{Seat, Time};
use farm::refusals::Refusal;
use questions::answers::{Agreed, Seen, Standing};

// What a seat has seen at a time: its view, and the known set.
pub fn seen(bytes: &[u8], seat: Seat, time: Time) -> Result<Seen, Refusal>
    ensures { result ≡ seen_asked (reading_of bytes.now) seat time }
{
    let mut room = EMPTY;
    let read = read_places(bytes, &mut room);
    seen_in(read, &room.losses, seat, time)
}

// What is agreed at a place: critical time, kept set, steps, the core and how many edits are in it.
pub fn agreed(bytes: &[u8], seat: Seat, time: Time) -> Result<Agreed, Refusal>
    ensures { result ≡ agreed_asked (reading_of bytes.now) seat time }
{
    let mut room = EMPTY;
    let read = read_places(bytes, &mut room);
    agreed_in(read, &room.losses, &room.editors, &room.times, seat, time)
}

// Whether a seat is a loser of the whole record, or clean.
pub fn standing(bytes: &[u8], seat: Seat) -> Result<Standing, Refusal>
    ensures { result ≡ standing_answer (loser_asked (reading_of bytes.now) seat) }
{
    let mut room = EMPTY;
    let read = read_places(bytes, &mut room);
    standing_in(read, &room.losses, seat)
}

// The view of a place, into a lent buffer of at least n numbers.
pub fn view(bytes: &[u8], seat: Seat, time: Time, out: &mut [i16]) -> Result<(), Refusal>
    ensures { Fills (λ room. view_asked room (reading_of bytes.now) seat time) out.old result out.new }
{
    let mut room = EMPTY;
    let read = read_places(bytes, &mut room);
    view_in(read, &room.losses, seat, time, out)
}

// The core of a place, into a lent buffer of at least n numbers.
pub fn core(bytes: &[u8], seat: Seat, time: Time, out: &mut [i16]) -> Result<(), Refusal>
    ensures { Fills (λ room. core_asked room (reading_of bytes.now) seat time) out.old result out.new }
{
    let mut room = EMPTY;
    let read = read_places(bytes, &mut room);
    core_in(read, &room.losses, seat, time, out)
}

// Edit marks into a lent buffer of at least as many bytes as there are edits: 1 in the core, 0 outside.
pub fn marks(bytes: &[u8], seat: Seat, time: Time, out: &mut [u8]) -> Result<(), Refusal>
    ensures { Fills (λ room. marks_asked room (reading_of bytes.now) seat time) out.old result out.new }
{
    let mut room = EMPTY;
    let read = read_places(bytes, &mut room);
    marks_in(
        read,
        &room.losses,
        &room.editors,
        &room.times,
        seat,
        time,
        out,
    )
}
