// Questions on the host's table: 19 first, and then 8, 7, 9 as of any other carrier. Its arrays are lent whole, since no
// answer looks past the record's rounds and edits.
#![tactic(auto, using(crate::proofs::AskLaws::table_questions))]

ghost use Rattle.std.specs.Prelude.{◌≡◌, length};
ghost use Rattle.farm.specs.Limits.{limits};
ghost use Rattle.record.specs.Answers.{written_in};
ghost use Rattle.record.specs.Writing.{answered, buffer_with};
ghost use Rattle.questions.specs.Answers.{Fills, standing_answer, seen_asked, agreed_asked};
ghost use Rattle.questions.specs.Question.{view_asked, core_asked, marks_asked, loser_asked};
ghost use Rattle.live_table.specs.Used.{table_reading};

use crate::carrier::check_table;
use carriers::carried::{agreed_in, core_in, marks_in, seen_in, standing_in, view_in};
use farm::places::{Seat, Time};
use farm::refusals::Refusal;
use live_table::sound::judge_table;
use live_table::table::Table;
use questions::answers::{Agreed, Seen, Standing};
use record::lists::Lists;
use writing::accepted::Accepted;
use writing::lists::write_accepted;

// What a seat has seen at a time: its view, and the known set.
pub fn seen(table: &Table, seat: Seat, time: Time) -> Result<Seen, Refusal>
    ensures { result ≡ seen_asked (table_reading table.now) seat time }
{
    seen_in(check_table(table), &table.losses, seat, time)
}

// What is agreed at a place: critical time, kept set, steps, the core and how many edits are in it.
pub fn agreed(table: &Table, seat: Seat, time: Time) -> Result<Agreed, Refusal>
    ensures { result ≡ agreed_asked (table_reading table.now) seat time }
{
    agreed_in(
        check_table(table),
        &table.losses,
        &table.editors,
        &table.times,
        seat,
        time,
    )
}

// Whether a seat is a loser of the whole record, or clean.
pub fn standing(table: &Table, seat: Seat) -> Result<Standing, Refusal>
    ensures { result ≡ standing_answer (loser_asked (table_reading table.now) seat) }
{
    standing_in(check_table(table), &table.losses, seat)
}

// The view of a place, into a lent buffer of at least n numbers.
pub fn view(table: &Table, seat: Seat, time: Time, out: &mut [i16]) -> Result<(), Refusal>
    ensures { Fills (λ room. view_asked room (table_reading table.now) seat time) out.old result out.new }
{
    view_in(check_table(table), &table.losses, seat, time, out)
}

// The core of a place, into a lent buffer of at least n numbers.
pub fn core(table: &Table, seat: Seat, time: Time, out: &mut [i16]) -> Result<(), Refusal>
    ensures { Fills (λ room. core_asked room (table_reading table.now) seat time) out.old result out.new }
{
    core_in(check_table(table), &table.losses, seat, time, out)
}

// Edit marks into a lent buffer of at least as many bytes as there are edits: 1 in the core, 0 outside.
pub fn marks(table: &Table, seat: Seat, time: Time, out: &mut [u8]) -> Result<(), Refusal>
    ensures { Fills (λ room. marks_asked room (table_reading table.now) seat time) out.old result out.new }
{
    marks_in(
        check_table(table),
        &table.losses,
        &table.editors,
        &table.times,
        seat,
        time,
        out,
    )
}

// The record so far as bytes, into a lent buffer: 19, 7.
#[tactic(auto, using(crate::proofs::AskLaws::table_writing))]
pub fn write_out(table: &Table, out: &mut [u8]) -> Result<usize, Refusal>
    ensures { (result ≡ written_in (answered limits (table_reading table.now) (length out.old)))
        × (out.new ≡ buffer_with limits (table_reading table.now) out.old) }
{
    if !judge_table(table) {
        return Err(Refusal::BadTable);
    }
    // The used part, as `judge_table` has it, which says why it stands twice.
    let sets = table.seats as usize * table.rounds as usize;
    let held = table.edits as usize;
    let used = Lists {
        seats: table.seats,
        bound: table.bound,
        rounds: table.rounds,
        losses: &table.losses[..sets],
        editors: &table.editors[..held],
        times: &table.times[..held],
        cells: &table.cells[..held],
        changes: &table.changes[..held],
    };
    write_accepted(Accepted { lists: used }, out)
}
