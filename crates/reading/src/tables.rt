// A record into lent tables. Refusal 7 comes first, whatever the record holds, then the record's own.
ghost use Rattle.std.specs.Prelude.{◌≡◌};
ghost use Rattle.record.specs.Tables.{tables};
ghost use Rattle.reading.specs.Outcome.{room_for, ReadOutcome};

use checking::whole::check;
use farm::limits::{TABLE_EDITS, TABLE_LOSS_SETS};
use farm::refusals::Refusal;
use filling::fill::fill;
use record::header::Header;

// Whether tables of so many entries have room for any record.
fn has_room(losses: usize, seats: usize, times: usize, cells: usize, changes: usize) -> bool
    ensures { result ≡ room_for losses seats times cells changes }
{
    TABLE_LOSS_SETS <= losses
        && TABLE_EDITS <= seats
        && TABLE_EDITS <= times
        && TABLE_EDITS <= cells
        && TABLE_EDITS <= changes
}

// Entries past the used ones stay, and a refusal changes none. The five lists come one by one, as C lends them.
pub fn read(
    bytes: &[u8],
    losses: &mut [u16],
    seats: &mut [u8],
    times: &mut [u16],
    cells: &mut [u32],
    changes: &mut [i16],
) -> Result<Header, Refusal>
    ensures { ReadOutcome bytes.now (tables losses.old seats.old times.old cells.old changes.old) result (tables losses.new seats.new times.new cells.new changes.new) }
{
    if !has_room(
        losses.len(),
        seats.len(),
        times.len(),
        cells.len(),
        changes.len(),
    ) {
        return Err(Refusal::NoRoom);
    }
    check(bytes)?;
    fill(bytes, losses, seats, times, cells, changes)
}
