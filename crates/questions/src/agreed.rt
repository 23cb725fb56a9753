// All that the page says of a place of an accepted record, settled once: 8, then 9. Critical time, kept
// set, steps, the core's latest times, and how many edits are in the core.
ghost use Rattle.std.specs.Prelude.{◌≡◌, ◌≤◌, length};
ghost use Rattle.farm.specs.Limits.{limits};
ghost use Rattle.viewing.specs.Counts.{farm_in};
ghost use Rattle.questions.specs.Question.{by_value, settled_in};
ghost use Rattle.questions.specs.Accepted.{Accepted, agreed_with};
ghost use Rattle.telling.specs.Laid.{InTime};
ghost use Rattle.questions.specs.Answers.{agreed_from};

use crate::answers::{Agreed, Summary};
use crate::settling::settle_at;
use construction::settled::Settled;
use farm::places::{Seat, Time};
use farm::refusals::Refusal;
use telling::edit_places::EditPlaces;
use telling::marks::count_marks;
use telling::times::put_times;
use viewing::farms::Farm;

// The parts of a settled answer, and how many edits are in its core.
fn agreed_with(settled: Settled, seats: u8, edits: EditPlaces) -> Agreed
    requires { (seats ≤ limits.most_seats) × InTime settled.core.of × (length edits.editors.now ≤ limits.most_edits) }
    ensures { result ≡ agreed_with seats settled edits.entry.editors.now edits.entry.times.now }
{
    let mut latest = [-1; 7];
    put_times(&settled.core.of, seats, &mut latest);
    Agreed {
        summary: Summary {
            critical: settled.critical,
            kept: settled.kept,
            steps: settled.steps,
        },
        latest,
        count: count_marks(&settled.core.of, edits),
    }
}

pub fn ask_agreed(farm: Farm, edits: EditPlaces, seat: Seat, time: Time) -> Result<Agreed, Refusal>
    requires { Accepted farm.sizes × (length edits.editors.now ≤ limits.most_edits) }
    ensures { result ≡ agreed_from farm.entry.sizes.seats edits.entry.editors.now edits.entry.times.now (settled_in by_value 0 (farm_in farm.entry) seat time) }
{
    let settled = settle_at(farm, seat, time, 0, 0)?;
    Ok(agreed_with(settled, farm.sizes.seats, edits))
}
