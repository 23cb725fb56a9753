// A record from lists, into a lent buffer: 3, 10, 4, edit by edit 3 and 5, and 7 last.
ghost use Rattle.std.specs.Prelude.{◌≡◌, length};
ghost use Rattle.farm.specs.Limits.{limits};
ghost use Rattle.record.specs.Answers.{written_in};
ghost use Rattle.record.specs.Lent.{tables_in, record_in};
ghost use Rattle.record.specs.Record.{good};
ghost use Rattle.record.specs.Writing.{needed_by, written_to, buffer_after, answered, buffer_with};

use crate::accepted::Accepted;
use crate::counting::{accepted_length, has_room};
use crate::putting::put_record;
use farm::refusals::Refusal;
use judging::lists::judge;
use record::lists::Lists;

// The length that writing these lists needs, with the refusals of writing but for the room.
pub fn length(lists: Lists) -> Result<usize, Refusal>
    ensures { result ≡ written_in (needed_by limits lists.entry.seats lists.entry.bound lists.entry.rounds (tables_in lists.entry)) }
{
    judge(lists)?;
    Ok(accepted_length(Accepted { lists }))
}

// Writes the record that the lists are into the front of the buffer. The bytes past it stay.
pub fn write(lists: Lists, out: &mut [u8]) -> Result<usize, Refusal>
    ensures { (result ≡ written_in (written_to limits lists.entry.seats lists.entry.bound lists.entry.rounds (tables_in lists.entry) (length out.old))) × (out.new ≡ buffer_after limits lists.entry.seats lists.entry.bound lists.entry.rounds (tables_in lists.entry) out.old) }
{
    judge(lists)?;
    write_accepted(Accepted { lists }, out)
}

// The same of lists that were judged already.
pub fn write_accepted(accepted: Accepted, out: &mut [u8]) -> Result<usize, Refusal>
    ensures { (result ≡ written_in (answered limits (good (record_in accepted.entry.lists)) (length out.old))) × (out.new ≡ buffer_with limits (good (record_in accepted.entry.lists)) out.old) }
{
    if !has_room(out.len(), accepted) {
        return Err(Refusal::NoRoom);
    }
    Ok(put_record(out, accepted))
}
