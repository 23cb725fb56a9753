// Each call on a table: its tests, and what an accepted call stores. A refusal writes nothing.
ghost use Rattle.live.specs.Answers.{Ends};
ghost use Rattle.live.specs.Calls.{opening, round, edit};

use crate::answering::{answer_edit, answer_round};
use farm::limits::{FEWEST_SEATS, MOST_SEATS};
use farm::places::{Seat, Time};
use farm::refusals::Refusal;
use live_entries::lists::put_sets;
use live_entries::table::put_edit;
use live_table::table::Table;
use record::edits::Edit;

// An opening: 3, or a record with no rounds and no edits. No array is touched.
#[tactic(auto, unfolding(record::specs::Good::good_header, record::specs::Writing::unless, crate::specs::Calls::tests_of, crate::specs::Calls::first_failing, crate::specs::Calls::answer_to, crate::specs::Calls::kept_or, crate::specs::Calls::table_after, crate::specs::Answers::done_of))]
pub fn open_into(table: &mut Table, seats: u8, bound: u8) -> Result<(), Refusal>
    ensures { Ends (opening seats bound) table.old result table.new }
{
    if (seats as u32) < FEWEST_SEATS {
        return Err(Refusal::OutOfRange);
    }
    if MOST_SEATS < seats as u32 {
        return Err(Refusal::OutOfRange);
    }
    if seats <= bound {
        return Err(Refusal::OutOfRange);
    }
    table.seats = seats;
    table.bound = bound;
    table.rounds = 0;
    table.edits = 0;
    Ok(())
}

// A round: 19, 11, 10, 4. It goes behind the ones held.
pub fn round_into(table: &mut Table, sets: &[u16]) -> Result<(), Refusal>
    ensures { Ends (round sets.now) table.old result table.new }
{
    answer_round(table, sets)?;
    let at = table.seats as usize * table.rounds as usize;
    put_sets(&mut table.losses, at, sets);
    table.rounds += 1;
    Ok(())
}

// An edit: 19, 3, 12, 5. It goes behind the ones held, at the present time.
pub fn edit_into(table: &mut Table, seat: Seat, cell: u32, change: i16) -> Result<(), Refusal>
    ensures { Ends (edit seat cell change) table.old result table.new }
{
    let new = Edit {
        seat,
        time: Time(table.rounds),
        cell,
        change,
    };
    answer_edit(table, new)?;
    put_edit(table, new);
    table.edits += 1;
    Ok(())
}
