// The questions on a record given as lists, tables that are already read. The order of refusals: those
// of lists, as for writing but without the room for it, then 8, 7, 9.
ghost use Rattle.std.specs.Prelude.{◌≡◌};
ghost use Rattle.questions.specs.Question.{view_asked, core_asked, marks_asked, loser_asked};
ghost use Rattle.carriers.specs.Loading.{reading_in};
ghost use Rattle.questions.specs.Answers.{Fills, standing_answer, seen_asked, agreed_asked};

use crate::carrier::check_lists;
use carriers::carried::{agreed_in, core_in, marks_in, seen_in, standing_in, view_in};
use farm::places::{Seat, Time};
use farm::refusals::Refusal;
use questions::answers::{Agreed, Seen, Standing};
use record::lists::Lists;

// What a seat has seen at a time: its view, and the known set.
pub fn seen(lists: Lists, seat: Seat, time: Time) -> Result<Seen, Refusal>
    ensures { result ≡ seen_asked (reading_in lists.entry) seat time }
{
    seen_in(check_lists(lists), lists.losses, seat, time)
}

// What is agreed at a place: critical time, kept set, steps, the core and how many edits are in it.
pub fn agreed(lists: Lists, seat: Seat, time: Time) -> Result<Agreed, Refusal>
    ensures { result ≡ agreed_asked (reading_in lists.entry) seat time }
{
    agreed_in(
        check_lists(lists),
        lists.losses,
        lists.editors,
        lists.times,
        seat,
        time,
    )
}

// Whether a seat is a loser of the whole record, or clean.
pub fn standing(lists: Lists, seat: Seat) -> Result<Standing, Refusal>
    ensures { result ≡ standing_answer (loser_asked (reading_in lists.entry) seat) }
{
    standing_in(check_lists(lists), lists.losses, seat)
}

// The view of a place, into a lent buffer of at least n numbers.
pub fn view(lists: Lists, seat: Seat, time: Time, out: &mut [i16]) -> Result<(), Refusal>
    ensures { Fills (λ room. view_asked room (reading_in lists.entry) seat time) out.old result out.new }
{
    view_in(check_lists(lists), lists.losses, seat, time, out)
}

// The core of a place, into a lent buffer of at least n numbers.
pub fn core(lists: Lists, seat: Seat, time: Time, out: &mut [i16]) -> Result<(), Refusal>
    ensures { Fills (λ room. core_asked room (reading_in lists.entry) seat time) out.old result out.new }
{
    core_in(check_lists(lists), lists.losses, seat, time, out)
}

// Edit marks into a lent buffer of at least as many bytes as there are edits: 1 in the core, 0 outside.
pub fn marks(lists: Lists, seat: Seat, time: Time, out: &mut [u8]) -> Result<(), Refusal>
    ensures { Fills (λ room. marks_asked room (reading_in lists.entry) seat time) out.old result out.new }
{
    marks_in(
        check_lists(lists),
        lists.losses,
        lists.editors,
        lists.times,
        seat,
        time,
        out,
    )
}
