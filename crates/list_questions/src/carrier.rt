// Lists as a carrier of a record: the refusal that the order decides, or the header of the record that they are.
ghost use Rattle.carriers.specs.Loading.{reading_in};
ghost use Rattle.carriers.specs.Carried.{Carried};

use farm::refusals::Refusal;
use judging::lists::judge;
use record::header::Header;
use record::lists::Lists;

// What the lists read as.
pub fn check_lists(lists: Lists) -> Result<Header, Refusal>
    ensures { Carried (reading_in lists.entry) result lists.entry.losses.now lists.entry.editors.now lists.entry.times.now }
{
    judge(lists)?;
    Ok(Header {
        seats: lists.seats,
        bound: lists.bound,
        rounds: lists.rounds,
        edits: lists.editors.len() as u16,
    })
}
