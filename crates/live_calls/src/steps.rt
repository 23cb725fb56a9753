// Each call as a step that takes the table by value and hands it back beside the answer. A refusal hands
// back the table as it came. A host that holds its table by value calls these.
ghost use Rattle.live.specs.Answers.{Ends};
ghost use Rattle.live.specs.Calls.{opening, round, edit};

use farm::places::Seat;
use live::answers::Step;
use live::places::{edit_into, open_into, round_into};
use live_table::table::Table;

// An opening: 3.
pub fn opened(table: Table, seats: u8, bound: u8) -> Step
    ensures { Ends (opening seats bound) table result.answer result.table }
{
    let mut next = table;
    let answer = open_into(&mut next, seats, bound);
    Step {
        answer,
        table: next,
    }
}

// A round: 19, 11, 10, 4.
pub fn with_round(table: Table, sets: &[u16]) -> Step
    ensures { Ends (round sets.now) table result.answer result.table }
{
    let mut next = table;
    let answer = round_into(&mut next, sets);
    Step {
        answer,
        table: next,
    }
}

// An edit: 19, 3, 12, 5.
pub fn with_edit(table: Table, seat: Seat, cell: u32, change: i16) -> Step
    ensures { Ends (edit seat cell change) table result.answer result.table }
{
    let mut next = table;
    let answer = edit_into(&mut next, seat, cell, change);
    Step {
        answer,
        table: next,
    }
}
