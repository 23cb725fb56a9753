// Cores of an accepted record: 8, then 7, then 9.
ghost use Rattle.viewing.specs.Counts.{farm_in};
ghost use Rattle.questions.specs.Accepted.{Accepted, core_in};
ghost use Rattle.questions.specs.Answers.{Fills};

use crate::settling::settle_at;
use farm::places::{Seat, Time};
use farm::refusals::Refusal;
use telling::times::put_times;
use viewing::farms::Farm;

// The core, into a lent buffer of at least n numbers.
pub fn ask_core_into(farm: Farm, seat: Seat, time: Time, out: &mut [i16]) -> Result<(), Refusal>
    requires { Accepted farm.sizes }
    ensures { Fills (λ room. core_in room (farm_in farm.entry) seat time) out.old result out.new }
{
    let settled = settle_at(farm, seat, time, out.len(), farm.sizes.seats as usize)?;
    put_times(&settled.core.of, farm.sizes.seats, out);
    Ok(())
}
