// The questions on the live table, and the record so far. Refusals: 19, then 8, 7, 9.
#![tactic(auto, using(crate::proofs::AskLaws::named_questions))]

ghost use Rattle.std.specs.Prelude.{◌≡◌};
ghost use Rattle.questions.specs.Question.{view_asked, core_asked, marks_asked, loser_asked};
ghost use Rattle.questions.specs.Answers.{seen_asked, agreed_asked, standing_answer};
ghost use Rattle.host.specs.Numbers.{seat_named, time_named};
ghost use Rattle.host.specs.Results.{FillsTold, seen_told, agreed_told, standing_told};
ghost use Rattle.live_table.specs.Used.{table_reading};
ghost use Rattle.host_table.specs.Told.{RecordTold};

use host::numbers::{SeatNumber, TimeNumber};
use host::results::{AgreedTold, LengthTold, SeenTold, StandingTold, refusal_number};
use live_questions::asks::{agreed, core, marks, seen, standing, view, write_out};
use live_table::table::Table;

// What a seat has seen at a time.
#[unsafe(no_mangle)]
pub extern "C" fn ricecrock_table_seen(
    table: &Table,
    seat: SeatNumber,
    time: TimeNumber,
) -> SeenTold
    ensures { result ≡ seen_told (seen_asked (table_reading table.now) (seat_named seat) (time_named time)) }
{
    seen(table, seat.into(), time.into()).into()
}

// What is agreed at a place.
#[unsafe(no_mangle)]
pub extern "C" fn ricecrock_table_agreed(
    table: &Table,
    seat: SeatNumber,
    time: TimeNumber,
) -> AgreedTold
    ensures { result ≡ agreed_told (agreed_asked (table_reading table.now) (seat_named seat) (time_named time)) }
{
    agreed(table, seat.into(), time.into()).into()
}

// Whether a seat is a loser of the record so far.
#[unsafe(no_mangle)]
pub extern "C" fn ricecrock_table_standing(table: &Table, seat: SeatNumber) -> StandingTold
    ensures { result ≡ standing_told (standing_answer (loser_asked (table_reading table.now) (seat_named seat))) }
{
    standing(table, seat.into()).into()
}

// The view of a place, into a lent buffer of at least n numbers.
#[unsafe(no_mangle)]
pub extern "C" fn ricecrock_table_view(
    table: &Table,
    seat: SeatNumber,
    time: TimeNumber,
    out: &mut [i16],
) -> u8
    ensures { FillsTold (λ room. view_asked room (table_reading table.now) (seat_named seat) (time_named time)) out.old result out.new }
{
    refusal_number(view(table, seat.into(), time.into(), out))
}

// The core of a place, into a lent buffer of at least n numbers.
#[unsafe(no_mangle)]
pub extern "C" fn ricecrock_table_core(
    table: &Table,
    seat: SeatNumber,
    time: TimeNumber,
    out: &mut [i16],
) -> u8
    ensures { FillsTold (λ room. core_asked room (table_reading table.now) (seat_named seat) (time_named time)) out.old result out.new }
{
    refusal_number(core(table, seat.into(), time.into(), out))
}

// Edit marks, into a lent buffer of at least as many bytes as there are edits.
#[unsafe(no_mangle)]
pub extern "C" fn ricecrock_table_marks(
    table: &Table,
    seat: SeatNumber,
    time: TimeNumber,
    out: &mut [u8],
) -> u8
    ensures { FillsTold (λ room. marks_asked room (table_reading table.now) (seat_named seat) (time_named time)) out.old result out.new }
{
    refusal_number(marks(table, seat.into(), time.into(), out))
}

// The record so far as bytes, into a lent buffer: 19, 7.
#[unsafe(no_mangle)]
pub extern "C" fn ricecrock_table_record(table: &Table, out: &mut [u8]) -> LengthTold
    ensures { RecordTold (table_reading table.now) out.old result out.new }
{
    write_out(table, out).into()
}
