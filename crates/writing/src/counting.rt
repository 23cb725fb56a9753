// How many bytes accepted lists take, and whether a buffer has room for them.
ghost use Rattle.std.specs.Prelude.{◌≡◌, ◌^◌, ◌<◌, leb, length};
ghost use Rattle.farm.specs.Limits.{limits};
ghost use Rattle.record.specs.Header.{header_bytes};
ghost use Rattle.record.specs.Lengths.{numbers_length, changes_length};
ghost use Rattle.record.specs.Lent.{tables_in, record_in};
ghost use Rattle.record.specs.Record.{bytes_of};
ghost use Rattle.record.specs.Writing.{header_from};

use crate::accepted::Accepted;
use numbers::write::number_length;
use record::changes::map_change;
use record::lists::Lists;

fn header_length(lists: Lists) -> usize
    requires { length lists.editors.now < 128 ^ 3 }
    ensures { result ≡ length (header_bytes limits (header_from lists.entry.seats lists.entry.bound lists.entry.rounds (tables_in lists.entry))) }
{
    let first = number_length(lists.seats as u32) + number_length(lists.bound as u32);
    first + number_length(lists.rounds as u32) + number_length(lists.editors.len() as u32)
}

// A cell is written as it is, a change as the number that it maps to: a loop for each says so with no more words than one for both.
fn cells_length(cells: &[u32]) -> usize
    ensures { result ≡ numbers_length limits cells.now }
{
    let mut total: usize = 0;
    for cell in cells {
        total += number_length(*cell);
    }
    total
}

fn changes_length(changes: &[i16]) -> usize
    ensures { result ≡ changes_length limits changes.now }
{
    let mut total: usize = 0;
    for change in changes {
        total += number_length(map_change(*change) as u32);
    }
    total
}

// How many bytes accepted lists take. Every loss set, seat and time takes one.
pub fn accepted_length(accepted: Accepted) -> usize
    ensures { result ≡ length (bytes_of limits (record_in accepted.entry.lists)) }
{
    let lists = accepted.lists;
    let single = lists.losses.len() + 2 * lists.editors.len();
    header_length(lists) + single + cells_length(lists.cells) + changes_length(lists.changes)
}

// Whether accepted lists fit a buffer. The counting is spared where any record of as many sets and edits fits:
// a header has at most five bytes and an edit at most eight.
pub fn has_room(room: usize, accepted: Accepted) -> bool
    ensures { result ≡ leb (length (bytes_of limits (record_in accepted.entry.lists))) room }
{
    let lists = accepted.lists;
    let most = 5 + lists.losses.len() + 8 * lists.editors.len();
    most <= room || accepted_length(accepted) <= room
}
