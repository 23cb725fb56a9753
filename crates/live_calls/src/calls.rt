// The calls on the host's table. Each is thin: it takes the table's value, calls the covered step, puts the
// step's table back, and answers what the step answered.
ghost use Rattle.live.specs.Calls.{opening, round, edit};
ghost use Rattle.live.specs.Answers.{Ends};

use crate::steps::{opened, with_edit, with_round};
use farm::places::Seat;
use farm::refusals::Refusal;
use live_table::table::Table;

// Opens a table in any state for a new record: 3.
pub fn open(table: &mut Table, seats: u8, bound: u8) -> Result<(), Refusal>
    ensures { Ends (opening seats bound) table.old result table.new }
{
    let step = opened(*table, seats, bound);
    *table = step.table;
    step.answer
}

// Adds a round, a loss set for each sender: 19, 11, 10, 4.
pub fn add_round(table: &mut Table, sets: &[u16]) -> Result<(), Refusal>
    ensures { Ends (round sets.now) table.old result table.new }
{
    let step = with_round(*table, sets);
    *table = step.table;
    step.answer
}

// Adds an edit at the present time: 19, 3, 12, 5.
pub fn add_edit(table: &mut Table, seat: Seat, cell: u32, change: i16) -> Result<(), Refusal>
    ensures { Ends (edit seat cell change) table.old result table.new }
{
    let step = with_edit(*table, seat, cell, change);
    *table = step.table;
    step.answer
}
