// The questions on what a carrier hands on: the record's refusal, or the header of an accepted record, with its loss sets and the places
// of its edits at the front of lists that may be longer. They come one by one, as they lie in a table, in lists or in a room.
#![tactic(auto, using(record::proofs::RefusalLaws::handed_up), unfolding(crate::specs::Carried::on_checked))]

ghost use Rattle.std.specs.Prelude.{◌≡◌, take};
ghost use Rattle.questions.specs.Accepted.{Accepted};
ghost use Rattle.questions.specs.Answers.{Fills, seen_answer, standing_answer};
ghost use Rattle.questions.specs.Question.{by_value};
ghost use Rattle.carriers.specs.Loading.{sizes_of};
ghost use Rattle.carriers.specs.Carried.{Fitting, Loaded, Sized, view_for, known_for, core_for, loser_for, agreed_for, marks_for};

use farm::places::{Seat, Time};
use farm::refusals::Refusal;
use questions::agreed::ask_agreed;
use questions::answers::{Agreed, Seen, Standing};
use questions::cores::ask_core_into;
use questions::marks::ask_marks;
use questions::views::{ask_seen, ask_standing, ask_view_into};
use record::header::Header;
use telling::edit_places::EditPlaces;
use viewing::farms::Farm;
use viewing::sizes::Sizes;

// The sizes are written out here and in `page`: the crates of `Header` and of `Sizes` do not know each other, and no third may write a `From`.
fn farm_of<'a>(header: Header, losses: &'a [u16]) -> Farm<'a>
    ensures { (result.sizes ≡ sizes_of header) × (result.losses.now ≡ losses.now) }
{
    Farm {
        sizes: Sizes {
            seats: header.seats,
            bound: header.bound,
            rounds: header.rounds,
        },
        losses,
    }
}

// The places of as many edits as the header says.
fn edits_of<'a>(header: Header, editors: &'a [u8], times: &'a [u16]) -> EditPlaces<'a>
    requires { Fitting header editors.now times.now }
    ensures { (result.editors.now ≡ take header.edits editors.now) × (result.times.now ≡ take header.edits times.now) }
{
    let edits = header.edits as usize;
    EditPlaces {
        editors: &editors[..edits],
        times: &times[..edits],
    }
}

// What a seat has seen.
pub fn seen_in(
    checked: Result<Header, Refusal>,
    losses: &[u16],
    seat: Seat,
    time: Time,
) -> Result<Seen, Refusal>
    requires { Sized checked }
    ensures { result ≡ seen_answer (view_for by_value checked losses.now seat time) (known_for checked losses.now seat time) }
{
    let header = checked?;
    ask_seen(farm_of(header, losses), seat, time)
}

// Whether a seat is a loser of the record, or clean.
pub fn standing_in(
    checked: Result<Header, Refusal>,
    losses: &[u16],
    seat: Seat,
) -> Result<Standing, Refusal>
    ensures { result ≡ standing_answer (loser_for checked losses.now seat) }
{
    let header = checked?;
    ask_standing(farm_of(header, losses), seat)
}

// The view of a place, into a lent buffer of at least n numbers.
pub fn view_in(
    checked: Result<Header, Refusal>,
    losses: &[u16],
    seat: Seat,
    time: Time,
    out: &mut [i16],
) -> Result<(), Refusal>
    requires { Sized checked }
    ensures { Fills (λ room. view_for room checked losses.now seat time) out.old result out.new }
{
    let header = checked?;
    ask_view_into(farm_of(header, losses), seat, time, out)
}

// The core of a place, into a lent buffer of at least n numbers.
pub fn core_in(
    checked: Result<Header, Refusal>,
    losses: &[u16],
    seat: Seat,
    time: Time,
    out: &mut [i16],
) -> Result<(), Refusal>
    requires { Sized checked }
    ensures { Fills (λ room. core_for room checked losses.now seat time) out.old result out.new }
{
    let header = checked?;
    ask_core_into(farm_of(header, losses), seat, time, out)
}

// What is agreed at a place.
#[tactic(auto, using(record::proofs::RefusalLaws::handed_up), unfolding(crate::specs::Carried::agreed_for))]
pub fn agreed_in(
    checked: Result<Header, Refusal>,
    losses: &[u16],
    editors: &[u8],
    times: &[u16],
    seat: Seat,
    time: Time,
) -> Result<Agreed, Refusal>
    requires { Loaded checked editors.now times.now }
    ensures { result ≡ agreed_for checked losses.now editors.now times.now seat time }
{
    let header = checked?;
    let edits = edits_of(header, editors, times);
    ask_agreed(farm_of(header, losses), edits, seat, time)
}

// Edit marks into a lent buffer.
pub fn marks_in(
    checked: Result<Header, Refusal>,
    losses: &[u16],
    editors: &[u8],
    times: &[u16],
    seat: Seat,
    time: Time,
    out: &mut [u8],
) -> Result<(), Refusal>
    requires { Loaded checked editors.now times.now }
    ensures { Fills (λ room. marks_for room checked losses.now editors.now times.now seat time) out.old result out.new }
{
    let header = checked?;
    let edits = edits_of(header, editors, times);
    ask_marks(farm_of(header, losses), edits, seat, time, out)
}
