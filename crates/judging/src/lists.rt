// Whether lists are a good record, before anything is written from them. Document 01's order decides:
// 3 for the header's numbers, 10 for the lengths, 4 for every loss set, then edit by edit 3 and 5.
ghost use Rattle.std.specs.Prelude.{◌≡◌, ◌+◌, ◌*◌, ◌^◌, ◌<◌, None, length};
ghost use Rattle.farm.specs.Limits.{limits};
ghost use Rattle.record.specs.Losses.{first_seat};
ghost use Rattle.record.specs.Good.{good_header, sender_after, good_sets, good_edit};
ghost use Rattle.record.specs.Writing.{header_from, edits_in, fitting, judged_edits};
ghost use Rattle.record.specs.Lent.{tables_in, verdict_on};
ghost use Rattle.record.specs.Answers.{judged_in};

use farm::limits::{
    FEWEST_SEATS, LARGEST_CELL, LARGEST_MAPPED_CHANGE, MOST_EDITS, MOST_ROUNDS, MOST_SEATS,
};
use farm::places::{Seat, Time};
use farm::refusals::Refusal;
use record::changes::map_change;
use record::edits::Edit;
use record::lists::Lists;
use record::losses::good_set;

#[tactic(auto, unfolding(record::specs::Good::good_header))]
fn good_header(lists: Lists) -> bool
    ensures { result ≡ good_header limits (header_from lists.entry.seats lists.entry.bound lists.entry.rounds (tables_in lists.entry)) }
{
    let seats = lists.seats as u32;
    FEWEST_SEATS <= seats
        && seats <= MOST_SEATS
        && lists.bound < lists.seats
        && lists.rounds as u32 <= MOST_ROUNDS
        && lists.editors.len() <= MOST_EDITS as usize
}

// Whether there is a loss set for each round and sender, and one of each field for every edit.
#[tactic(auto, unfolding(record::specs::Writing::fitting))]
fn lengths_fit(lists: Lists) -> bool
    ensures { result ≡ fitting lists.entry.seats lists.entry.rounds (tables_in lists.entry) }
{
    let edits = lists.editors.len();
    lists.losses.len() == lists.seats as usize * lists.rounds as usize
        && lists.times.len() == edits
        && lists.cells.len() == edits
        && lists.changes.len() == edits
}

// After the last sender of a round comes the first one of the next.
#[tactic(auto, unfolding(record::specs::Good::sender_after))]
fn sender_after(seats: u8, sender: Seat) -> Seat
    requires { sender.0 < seats }
    ensures { result ≡ sender_after seats sender }
{
    let next = sender.0 + 1;
    if next == seats {
        return Seat(0);
    }
    Seat(next)
}

fn good_losses(seats: u8, losses: &[u16]) -> bool
    requires { (0 < seats) × (seats < 16) }
    ensures { result ≡ good_sets seats first_seat losses.now }
{
    let mut sender = Seat(0);
    for set in losses {
        if !good_set(seats, sender, *set as u32) {
            return false;
        }
        sender = sender_after(seats, sender);
    }
    true
}

#[tactic(auto, unfolding(record::specs::Good::good_edit))]
fn good_edit(seats: u8, rounds: u16, edit: Edit) -> bool
    requires { 0 < seats }
    ensures { result ≡ good_edit limits seats rounds edit }
{
    edit.seat.0 < seats
        && edit.time.0 <= rounds
        && edit.cell <= LARGEST_CELL
        && map_change(edit.change) as u32 <= LARGEST_MAPPED_CHANGE
}

// Where an edit stands in the order, as one number: its time, then its seat, then its cell, each with room for all that its type holds.
fn order_number(edit: Edit) -> u64
    ensures { (result ≡ (edit.time.0 * 256 + edit.seat.0) * 4294967296 + edit.cell) × (result < 2 ^ 56) }
{
    (edit.time.0 as u64 * 256 + edit.seat.0 as u64) * 4_294_967_296 + edit.cell as u64
}

// Edit by edit: its fields first, then whether it comes after the one before. For that the loop carries the least number that the next one
// may have: over many edits this is faster than `record::edits::comes_after`, which needs the edit before.
fn judge_edits(lists: Lists) -> Result<(), Refusal>
    requires { (0 < lists.seats) × (length lists.times.now ≡ length lists.editors.now) × (length lists.cells.now ≡ length lists.editors.now) × (length lists.changes.now ≡ length lists.editors.now) }
    ensures { result ≡ judged_in (judged_edits limits lists.entry.seats lists.entry.rounds None (edits_in (tables_in lists.entry))) }
{
    let mut least = 0;
    for i in 0..lists.editors.len() {
        let edit = Edit {
            seat: Seat(lists.editors[i]),
            time: Time(lists.times[i]),
            cell: lists.cells[i],
            change: lists.changes[i],
        };
        if !good_edit(lists.seats, lists.rounds, edit) {
            return Err(Refusal::OutOfRange);
        }
        let number = order_number(edit);
        if number < least {
            return Err(Refusal::BadOrder);
        }
        least = number + 1;
    }
    Ok(())
}

// Whether the lists are a good record, and if not, the one refusal that the order decides.
#[tactic(auto, unfolding(record::specs::Answers::judged_in, record::specs::Writing::judged_lists, record::specs::Writing::unless, record::specs::Good::good_header))]
pub fn judge(lists: Lists) -> Result<(), Refusal>
    ensures { result ≡ judged_in (verdict_on lists.entry) }
{
    if !good_header(lists) {
        return Err(Refusal::OutOfRange);
    }
    if !lengths_fit(lists) {
        return Err(Refusal::BadLengths);
    }
    if !good_losses(lists.seats, lists.losses) {
        return Err(Refusal::BadLossSet);
    }
    judge_edits(lists)
}
