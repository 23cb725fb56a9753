// Views, known sets and losers of an accepted record. 8 is tested first, then 7; 9 is never given. That the record is accepted is asked where
// it is needed: `ask_standing` and `is_place` answer for any farm.
#![tactic(auto, unfolding(crate::specs::Question::is_place, crate::specs::Question::provided, crate::specs::Question::fits, crate::specs::Question::view_in, crate::specs::Question::known_in, crate::specs::Question::loser_in))]

ghost use Rattle.std.specs.Prelude.{◌≡◌, []};
ghost use Rattle.viewing.specs.Counts.{farm_for, farm_in};
ghost use Rattle.questions.specs.Question.{by_value, is_place, view_in, known_in, loser_in};
ghost use Rattle.questions.specs.Accepted.{Accepted};
ghost use Rattle.questions.specs.Answers.{Fills, seen_answer, standing_answer};

use crate::answers::{Seen, Standing};
use construction::known::known_in;
use construction::losers::is_loser;
use farm::places::{Seat, Time};
use farm::refusals::Refusal;
use telling::times::put_times;
use viewing::farms::Farm;
use viewing::sizes::Sizes;
use viewing::views::view_of;

// Whether a seat is below n and a time at most R, whatever was lost: where not, 8 is given.
pub fn is_place(sizes: Sizes, seat: Seat, time: Time) -> bool
    ensures { result ≡ is_place (farm_for sizes []) seat time }
{
    seat.0 < sizes.seats && time.0 <= sizes.rounds
}

// The view of a place, into a lent buffer of at least n numbers.
pub fn ask_view_into(farm: Farm, seat: Seat, time: Time, out: &mut [i16]) -> Result<(), Refusal>
    requires { Accepted farm.sizes }
    ensures { Fills (λ room. view_in room (farm_in farm.entry) seat time) out.old result out.new }
{
    if !is_place(farm.sizes, seat, time) {
        return Err(Refusal::NoSuchPlace);
    }
    if out.len() < farm.sizes.seats as usize {
        return Err(Refusal::NoRoom);
    }
    let view = view_of(farm, seat, time);
    put_times(&view.of, farm.sizes.seats, out);
    Ok(())
}

// The view and its known set, by value.
pub fn ask_seen(farm: Farm, seat: Seat, time: Time) -> Result<Seen, Refusal>
    requires { Accepted farm.sizes }
    ensures { result ≡ seen_answer (view_in by_value (farm_in farm.entry) seat time) (known_in (farm_in farm.entry) seat time) }
{
    if !is_place(farm.sizes, seat, time) {
        return Err(Refusal::NoSuchPlace);
    }
    let view = view_of(farm, seat, time);
    let mut latest = [-1; 7];
    put_times(&view.of, farm.sizes.seats, &mut latest);
    Ok(Seen {
        latest,
        known: known_in(farm, &view.of),
    })
}

// Whether a seat is a loser of the whole record, or clean.
pub fn ask_standing(farm: Farm, seat: Seat) -> Result<Standing, Refusal>
    ensures { result ≡ standing_answer (loser_in (farm_in farm.entry) seat) }
{
    if farm.sizes.seats <= seat.0 {
        return Err(Refusal::NoSuchPlace);
    }
    if is_loser(farm, seat) {
        Ok(Standing::Loser)
    } else {
        Ok(Standing::Clean)
    }
}
