// The questions on a record as lists. Refusals: those of lists, then 8, 7, 9.
ghost use Rattle.std.specs.Prelude.{◌≡◌};
ghost use Rattle.carriers.specs.Loading.{lists_read};
ghost use Rattle.questions.specs.Question.{view_asked, core_asked, marks_asked, loser_asked};
ghost use Rattle.questions.specs.Answers.{seen_asked, agreed_asked, standing_answer};
ghost use Rattle.host.specs.Numbers.{seat_named, time_named};
ghost use Rattle.host.specs.Results.{FillsTold, seen_told, agreed_told, standing_told};

use crate::given::lists_given;
use host::numbers::{SeatNumber, TimeNumber};
use host::results::{AgreedTold, SeenTold, StandingTold, refusal_number};
use list_questions::asks::{agreed, core, marks, seen, standing, view};

// What a seat has seen at a time.
#[unsafe(no_mangle)]
pub extern "C" fn ricecrock_lists_seen<'a>(
    seats: u32,
    bound: u32,
    rounds: u32,
    losses: &'a [u16],
    editors: &'a [u8],
    times: &'a [u16],
    cells: &'a [u32],
    changes: &'a [i16],
    seat: SeatNumber,
    time: TimeNumber,
) -> SeenTold
    ensures { result ≡ seen_told (seen_asked (lists_read seats bound rounds losses.now editors.now times.now cells.now changes.now) (seat_named seat) (time_named time)) }
{
    let lists = lists_given(seats, bound, rounds, losses, editors, times, cells, changes);
    seen(lists, seat.into(), time.into()).into()
}

// What is agreed at a place.
#[unsafe(no_mangle)]
pub extern "C" fn ricecrock_lists_agreed<'a>(
    seats: u32,
    bound: u32,
    rounds: u32,
    losses: &'a [u16],
    editors: &'a [u8],
    times: &'a [u16],
    cells: &'a [u32],
    changes: &'a [i16],
    seat: SeatNumber,
    time: TimeNumber,
) -> AgreedTold
    ensures { result ≡ agreed_told (agreed_asked (lists_read seats bound rounds losses.now editors.now times.now cells.now changes.now) (seat_named seat) (time_named time)) }
{
    let lists = lists_given(seats, bound, rounds, losses, editors, times, cells, changes);
    agreed(lists, seat.into(), time.into()).into()
}

// Whether a seat is a loser of the whole record.
#[unsafe(no_mangle)]
pub extern "C" fn ricecrock_lists_standing<'a>(
    seats: u32,
    bound: u32,
    rounds: u32,
    losses: &'a [u16],
    editors: &'a [u8],
    times: &'a [u16],
    cells: &'a [u32],
    changes: &'a [i16],
    seat: SeatNumber,
) -> StandingTold
    ensures { result ≡ standing_told (standing_answer (loser_asked (lists_read seats bound rounds losses.now editors.now times.now cells.now changes.now) (seat_named seat))) }
{
    let lists = lists_given(seats, bound, rounds, losses, editors, times, cells, changes);
    standing(lists, seat.into()).into()
}

// The view of a place, into a lent buffer of at least n numbers.
#[unsafe(no_mangle)]
pub extern "C" fn ricecrock_lists_view<'a>(
    seats: u32,
    bound: u32,
    rounds: u32,
    losses: &'a [u16],
    editors: &'a [u8],
    times: &'a [u16],
    cells: &'a [u32],
    changes: &'a [i16],
    seat: SeatNumber,
    time: TimeNumber,
    out: &mut [i16],
) -> u8
    ensures { FillsTold (λ room. view_asked room (lists_read seats bound rounds losses.now editors.now times.now cells.now changes.now) (seat_named seat) (time_named time)) out.old result out.new }
{
    let lists = lists_given(seats, bound, rounds, losses, editors, times, cells, changes);
    refusal_number(view(lists, seat.into(), time.into(), out))
}

// The core of a place, into a lent buffer of at least n numbers.
#[unsafe(no_mangle)]
pub extern "C" fn ricecrock_lists_core<'a>(
    seats: u32,
    bound: u32,
    rounds: u32,
    losses: &'a [u16],
    editors: &'a [u8],
    times: &'a [u16],
    cells: &'a [u32],
    changes: &'a [i16],
    seat: SeatNumber,
    time: TimeNumber,
    out: &mut [i16],
) -> u8
    ensures { FillsTold (λ room. core_asked room (lists_read seats bound rounds losses.now editors.now times.now cells.now changes.now) (seat_named seat) (time_named time)) out.old result out.new }
{
    let lists = lists_given(seats, bound, rounds, losses, editors, times, cells, changes);
    refusal_number(core(lists, seat.into(), time.into(), out))
}

// Edit marks, into a lent buffer of at least as many bytes as there are edits.
#[unsafe(no_mangle)]
pub extern "C" fn ricecrock_lists_marks<'a>(
    seats: u32,
    bound: u32,
    rounds: u32,
    losses: &'a [u16],
    editors: &'a [u8],
    times: &'a [u16],
    cells: &'a [u32],
    changes: &'a [i16],
    seat: SeatNumber,
    time: TimeNumber,
    out: &mut [u8],
) -> u8
    ensures { FillsTold (λ room. marks_asked room (lists_read seats bound rounds losses.now editors.now times.now cells.now changes.now) (seat_named seat) (time_named time)) out.old result out.new }
{
    let lists = lists_given(seats, bound, rounds, losses, editors, times, cells, changes);
    refusal_number(marks(lists, seat.into(), time.into(), out))
}
