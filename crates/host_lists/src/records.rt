// A record as lists: whether they are a good one, its length, and its bytes. Refusals: 3, 10, 4, edit by edit 3 and 5, then 7.
ghost use Rattle.std.specs.Prelude.{◌≡◌};
ghost use Rattle.farm.specs.Limits.{limits};
ghost use Rattle.record.specs.Answers.{checked_of, written_in};
ghost use Rattle.record.specs.Writing.{lists_of, needed_by};
ghost use Rattle.carriers.specs.Loading.{lists_read};
ghost use Rattle.host.specs.Results.{header_told, length_told};
ghost use Rattle.host_lists.specs.Told.{WriteTold};

use crate::given::lists_given;
use host::results::{HeaderTold, LengthTold};
use list_questions::carrier::check_lists;
use writing::lists::{length, write};

// Whether the lists are a good record.
#[unsafe(no_mangle)]
pub extern "C" fn ricecrock_lists_judge<'a>(
    seats: u32,
    bound: u32,
    rounds: u32,
    losses: &'a [u16],
    editors: &'a [u8],
    times: &'a [u16],
    cells: &'a [u32],
    changes: &'a [i16],
) -> HeaderTold
    ensures { result ≡ header_told (checked_of (lists_read seats bound rounds losses.now editors.now times.now cells.now changes.now)) }
{
    let lists = lists_given(seats, bound, rounds, losses, editors, times, cells, changes);
    check_lists(lists).into()
}

// How many bytes the record has.
#[tactic(auto, unfolding(record::specs::Writing::needed_by))]
#[unsafe(no_mangle)]
pub extern "C" fn ricecrock_lists_length<'a>(
    seats: u32,
    bound: u32,
    rounds: u32,
    losses: &'a [u16],
    editors: &'a [u8],
    times: &'a [u16],
    cells: &'a [u32],
    changes: &'a [i16],
) -> LengthTold
    ensures { result ≡ length_told (written_in (needed_by limits seats bound rounds (lists_of losses.now editors.now times.now cells.now changes.now))) }
{
    let lists = lists_given(seats, bound, rounds, losses, editors, times, cells, changes);
    length(lists).into()
}

// Writes the record into the front of the buffer. The bytes past it stay.
#[tactic(auto, unfolding(record::specs::Writing::written_to, record::specs::Writing::buffer_after))]
#[unsafe(no_mangle)]
pub extern "C" fn ricecrock_lists_write<'a>(
    seats: u32,
    bound: u32,
    rounds: u32,
    losses: &'a [u16],
    editors: &'a [u8],
    times: &'a [u16],
    cells: &'a [u32],
    changes: &'a [i16],
    out: &mut [u8],
) -> LengthTold
    ensures { WriteTold seats bound rounds (lists_of losses.now editors.now times.now cells.now changes.now) out.old result out.new }
{
    let lists = lists_given(seats, bound, rounds, losses, editors, times, cells, changes);
    write(lists, out).into()
}
