// Which edits of an accepted record are in a core: 8, then 7, then 9. An edit is in the core if its
// place is.
ghost use Rattle.viewing.specs.Counts.{farm_in};
ghost use Rattle.questions.specs.Accepted.{Accepted, marks_on};
ghost use Rattle.questions.specs.Answers.{Fills};

use crate::settling::settle_at;
use farm::places::{Seat, Time};
use farm::refusals::Refusal;
use telling::edit_places::EditPlaces;
use telling::marks::put_marks;
use viewing::farms::Farm;

// Edit marks into a lent buffer of at least as many bytes as there are edits: 1 in the core, 0 outside.
pub fn ask_marks(
    farm: Farm,
    edits: EditPlaces,
    seat: Seat,
    time: Time,
    out: &mut [u8],
) -> Result<(), Refusal>
    requires { Accepted farm.sizes }
    ensures { Fills (λ room. marks_on room (farm_in farm.entry) edits.entry.editors.now edits.entry.times.now seat time) out.old result out.new }
{
    let settled = settle_at(farm, seat, time, out.len(), edits.editors.len())?;
    put_marks(&settled.core.of, edits, out);
    Ok(())
}
