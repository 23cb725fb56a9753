// The questions on a record as bytes. Refusals: 1 to 6, then 8, 7, 9.
ghost use Rattle.std.specs.Prelude.{◌≡◌};
ghost use Rattle.record.specs.Document.{reading_of};
ghost use Rattle.questions.specs.Question.{view_asked, core_asked, marks_asked, loser_asked};
ghost use Rattle.questions.specs.Answers.{seen_asked, agreed_asked, standing_answer};
ghost use Rattle.host.specs.Numbers.{seat_named, time_named};
ghost use Rattle.host.specs.Results.{FillsTold, seen_told, agreed_told, standing_told};

use byte_questions::asks::{agreed, core, marks, seen, standing, view};
use host::numbers::{SeatNumber, TimeNumber};
use host::results::{AgreedTold, SeenTold, StandingTold, refusal_number};

// What a seat has seen at a time.
#[unsafe(no_mangle)]
pub extern "C" fn ricecrock_bytes_seen(bytes: &[u8], seat: SeatNumber, time: TimeNumber) -> SeenTold
    ensures { result ≡ seen_told (seen_asked (reading_of bytes.now) (seat_named seat) (time_named time)) }
{
    seen(bytes, seat.into(), time.into()).into()
}

// What is agreed at a place.
#[unsafe(no_mangle)]
pub extern "C" fn ricecrock_bytes_agreed(
    bytes: &[u8],
    seat: SeatNumber,
    time: TimeNumber,
) -> AgreedTold
    ensures { result ≡ agreed_told (agreed_asked (reading_of bytes.now) (seat_named seat) (time_named time)) }
{
    agreed(bytes, seat.into(), time.into()).into()
}

// Whether a seat is a loser of the whole record.
#[unsafe(no_mangle)]
pub extern "C" fn ricecrock_bytes_standing(bytes: &[u8], seat: SeatNumber) -> StandingTold
    ensures { result ≡ standing_told (standing_answer (loser_asked (reading_of bytes.now) (seat_named seat))) }
{
    standing(bytes, seat.into()).into()
}

// The view of a place, into a lent buffer of at least n numbers.
#[unsafe(no_mangle)]
pub extern "C" fn ricecrock_bytes_view(
    bytes: &[u8],
    seat: SeatNumber,
    time: TimeNumber,
    out: &mut [i16],
) -> u8
    ensures { FillsTold (λ room. view_asked room (reading_of bytes.now) (seat_named seat) (time_named time)) out.old result out.new }
{
    refusal_number(view(bytes, seat.into(), time.into(), out))
}

// The core of a place, into a lent buffer of at least n numbers.
#[unsafe(no_mangle)]
pub extern "C" fn ricecrock_bytes_core(
    bytes: &[u8],
    seat: SeatNumber,
    time: TimeNumber,
    out: &mut [i16],
) -> u8
    ensures { FillsTold (λ room. core_asked room (reading_of bytes.now) (seat_named seat) (time_named time)) out.old result out.new }
{
    refusal_number(core(bytes, seat.into(), time.into(), out))
}

// Edit marks, into a lent buffer of at least as many bytes as there are edits.
#[unsafe(no_mangle)]
pub extern "C" fn ricecrock_bytes_marks(
    bytes: &[u8],
    seat: SeatNumber,
    time: TimeNumber,
    out: &mut [u8],
) -> u8
    ensures { FillsTold (λ room. marks_asked room (reading_of bytes.now) (seat_named seat) (time_named time)) out.old result out.new }
{
    refusal_number(marks(bytes, seat.into(), time.into(), out))
}
