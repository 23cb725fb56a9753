// What a call is answered before anything is added: its tests in document 01's order.
ghost use Rattle.std.specs.Prelude.{◌≡◌, []};
ghost use Rattle.farm.specs.Limits.{limits};
ghost use Rattle.record.specs.Answers.{judged_in};
ghost use Rattle.record.specs.Writing.{lists_of, judged_lists};
ghost use Rattle.live.specs.Answers.{done_of};
ghost use Rattle.live.specs.Calls.{round, edit, answer_to};

use farm::limits::{LARGEST_CELL, MOST_EDITS, MOST_ROUNDS};
use farm::refusals::Refusal;
use judging::lists::judge;
use live_entries::table::last_held;
use live_table::sound::judge_table;
use live_table::table::Table;
use record::edits::{Edit, comes_after};
use record::lists::Lists;

// A round's sets, judged as those of a record of one round and no edits.
fn judge_round(seats: u8, bound: u8, sets: &[u16]) -> Result<(), Refusal>
    ensures { result ≡ judged_in (judged_lists limits seats bound 1 (lists_of sets.now [] [] [] [])) }
{
    judge(Lists {
        seats,
        bound,
        rounds: 1,
        losses: sets,
        editors: &[],
        times: &[],
        cells: &[],
        changes: &[],
    })
}

// A round: 19, 11, 10, 4. Its sets are judged as those of a record of one round.
pub fn answer_round(table: &Table, sets: &[u16]) -> Result<(), Refusal>
    ensures { result ≡ done_of (answer_to (round sets.now) table.now) }
{
    if !judge_table(table) {
        return Err(Refusal::BadTable);
    }
    if MOST_ROUNDS <= table.rounds as u32 {
        return Err(Refusal::RoundsFull);
    }
    judge_round(table.seats, table.bound, sets)
}

// An edit at the present time: 19, 3, 12, 5.
pub fn answer_edit(table: &Table, new: Edit) -> Result<(), Refusal>
    requires { new.time.0 ≡ table.now.rounds }
    ensures { result ≡ done_of (answer_to (edit new.seat new.cell new.change) table.now) }
{
    if !judge_table(table) {
        return Err(Refusal::BadTable);
    }
    if table.seats <= new.seat.0 {
        return Err(Refusal::OutOfRange);
    }
    if LARGEST_CELL < new.cell {
        return Err(Refusal::OutOfRange);
    }
    if MOST_EDITS <= table.edits as u32 {
        return Err(Refusal::EditsFull);
    }
    let before = last_held(table);
    if !comes_after(before, new) {
        return Err(Refusal::BadOrder);
    }
    Ok(())
}
