// The calls that change the live table.
ghost use Rattle.live.specs.Calls.{opening, round, edit};
ghost use Rattle.host.specs.Numbers.{seat_named};
ghost use Rattle.host_table.specs.Codes.{EndsWith, EditHanded};

use farm::places::Seat;
use host::numbers::{SeatNumber, byte_of};
use host::results::refusal_number;
use live::places::{edit_into, open_into, round_into};
use live_table::table::Table;

// Opens a table in any state for a new record: 3.
#[unsafe(no_mangle)]
#[tactic(auto, using(crate::proofs::AskLaws::named_calls))]
pub extern "C" fn ricecrock_table_open(table: &mut Table, seats: u32, bound: u32) -> u8
    ensures { EndsWith (opening seats bound) table.old result table.new }
{
    refusal_number(open_into(table, byte_of(seats), byte_of(bound)))
}

// Adds a round, a loss set for each sender: 19, 11, 10, 4.
#[unsafe(no_mangle)]
pub extern "C" fn ricecrock_table_add_round(table: &mut Table, sets: &[u16]) -> u8
    ensures { EndsWith (round sets.now) table.old result table.new }
{
    refusal_number(round_into(table, sets))
}

// The numbers of an edit that the library's call can take.
#[derive(Clone, Copy)]
struct Small {
    seat: Seat,
    change: i16,
}

// A change that is no change of height is handed on as an edit of a seat that no record has: it is refused 3 as well.
fn small_edit(seat: SeatNumber, change: i32) -> Small
    ensures { EditHanded seat change result.seat result.change }
{
    match i16::try_from(change) {
        Ok(change) => Small {
            seat: seat.into(),
            change,
        },
        Err(_) => Small {
            seat: Seat(255),
            change: 0,
        },
    }
}

// Adds an edit at the present time: 19, 3, 12, 5.
#[unsafe(no_mangle)]
pub extern "C" fn ricecrock_table_add_edit(
    table: &mut Table,
    seat: SeatNumber,
    cell: u32,
    change: i32,
) -> u8
    ensures { EndsWith (edit (seat_named seat) cell change) table.old result table.new }
{
    let small = small_edit(seat, change);
    refusal_number(edit_into(table, small.seat, cell, small.change))
}
