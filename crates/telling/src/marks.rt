// Which edits are in a core that is held as counts. An edit is in the core if its place is.
ghost use Rattle.std.specs.Prelude.{◌≡◌, ◌≤◌, length};
ghost use Rattle.farm.specs.Limits.{limits};
ghost use Rattle.viewing.specs.Counts.{held};
ghost use Rattle.telling.specs.Marks.{mark_at, marks_in, count_in};
ghost use Rattle.telling.specs.Laid.{laid};

use crate::edit_places::EditPlaces;
use farm::places::{Seat, Time};

// 1 for a place in the core, 0 for one outside. A seat that the counts do not have is outside.
#[tactic(auto, unfolding(crate::specs::Marks::mark_at, knowledge::specs::Settled::has_place, viewing::specs::Counts::held))]
fn mark_of(core: &[u16], seat: Seat, time: Time) -> u8
    ensures { result ≡ mark_at (held core.now) seat time }
{
    let at = seat.0 as usize;
    if core.len() <= at {
        return 0;
    }
    if time.0 < core[at] { 1 } else { 0 }
}

// A mark for each edit, into the first entries of a buffer.
pub fn put_marks(core: &[u16], edits: EditPlaces, out: &mut [u8])
    requires { length edits.editors.now ≤ length out.old }
    ensures { out.new ≡ laid (marks_in (held core.now) edits.entry.editors.now edits.entry.times.now) out.old }
{
    for (edit, (editor, time)) in edits.editors.iter().zip(edits.times).enumerate() {
        out[edit] = mark_of(core, Seat(*editor), Time(*time));
    }
}

// How many edits are in the core that the counts hold.
pub fn count_marks(core: &[u16], edits: EditPlaces) -> u16
    requires { length edits.editors.now ≤ limits.most_edits }
    ensures { result ≡ count_in (held core.now) edits.entry.editors.now edits.entry.times.now }
{
    let mut count: u16 = 0;
    for (editor, time) in edits.editors.iter().zip(edits.times) {
        count += mark_of(core, Seat(*editor), Time(*time)) as u16;
    }
    count
}
