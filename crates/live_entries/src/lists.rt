// What a live call stores, and the last edit held, on the lists of a table. The lists may be longer than what is used of them.
ghost use Rattle.std.specs.Prelude.{◌≡◌, [], ◌∷◌, ◌+◌, ◌≤◌, length, take, None};
ghost use Rattle.record.specs.Faults.{last_of};
ghost use Rattle.record.specs.Tables.{over, edits_from};
ghost use Rattle.live_entries.specs.Held.{Held};

use farm::places::{Seat, Time};
use record::edits::Edit;

// Loss sets from a place on; those before and after them stay.
pub fn put_sets(losses: &mut [u16], at: usize, sets: &[u16])
    requires { at + length sets.now ≤ length losses.old }
    ensures { losses.new ≡ over at sets.now losses.old }
{
    for sender in 0..sets.len() {
        losses[at + sender] = sets[sender];
    }
}

// One entry in each of the four lists of edits; the others stay.
pub fn put_edit(
    editors: &mut [u8],
    times: &mut [u16],
    cells: &mut [u32],
    changes: &mut [i16],
    at: usize,
    edit: Edit,
)
    requires { Held (at + 1) editors.old times.old cells.old changes.old }
    ensures { (editors.new ≡ over at (edit.seat.0 ∷ []) editors.old)
        × (times.new ≡ over at (edit.time.0 ∷ []) times.old)
        × (cells.new ≡ over at (edit.cell ∷ []) cells.old)
        × (changes.new ≡ over at (edit.change ∷ []) changes.old) }
{
    editors[at] = edit.seat.0;
    times[at] = edit.time.0;
    cells[at] = edit.cell;
    changes[at] = edit.change;
}

// The last of so many edits, which the next one has to come after.
pub fn last_held(
    editors: &[u8],
    times: &[u16],
    cells: &[u32],
    changes: &[i16],
    held: usize,
) -> Option<Edit>
    requires { Held held editors.now times.now cells.now changes.now }
    ensures { result ≡ last_of None (edits_from (take held editors.now) (take held times.now) (take held cells.now) (take held changes.now)) }
{
    let at = held.checked_sub(1)?;
    Some(Edit {
        seat: Seat(editors[at]),
        time: Time(times[at]),
        cell: cells[at],
        change: changes[at],
    })
}
