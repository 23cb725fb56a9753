// The bytes of accepted lists, put into a buffer that has room for them.
ghost use Rattle.std.specs.Prelude.{◌≡◌, ◌+◌, ◌^◌, ◌<◌, ◌≤◌, length};
ghost use Rattle.std.specs.List.{All};
ghost use Rattle.farm.specs.Limits.{limits};
ghost use Rattle.record.specs.Header.{header_bytes};
ghost use Rattle.record.specs.Losses.{loss_bytes};
ghost use Rattle.record.specs.Edits.{edit_bytes, edits_bytes};
ghost use Rattle.record.specs.Lent.{tables_in, record_in};
ghost use Rattle.record.specs.Record.{bytes_of};
ghost use Rattle.record.specs.Writing.{header_from, edits_in};
ghost use Rattle.numbers.specs.Placing.{Put};

use crate::accepted::Accepted;
use farm::places::{Seat, Time};
use numbers::write::put_number;
use record::changes::map_change;
use record::edits::Edit;
use record::lists::Lists;

fn put_header(out: &mut [u8], lists: Lists) -> usize
    requires { (length lists.editors.now < 128 ^ 3) × (length (header_bytes limits (header_from lists.seats lists.bound lists.rounds (tables_in lists))) ≤ length out.old) }
    ensures { Put 0 (header_bytes limits (header_from lists.entry.seats lists.entry.bound lists.entry.rounds (tables_in lists.entry))) out.old result out.new }
{
    let after_seats = put_number(out, 0, lists.seats as u32);
    let after_bound = put_number(out, after_seats, lists.bound as u32);
    let after_rounds = put_number(out, after_bound, lists.rounds as u32);
    put_number(out, after_rounds, lists.editors.len() as u32)
}

fn put_losses(out: &mut [u8], from: usize, losses: &[u16]) -> usize
    requires { from + length (loss_bytes limits losses.now) ≤ length out.old }
    ensures { Put from (loss_bytes limits losses.now) out.old result out.new }
{
    let mut at = from;
    for set in losses {
        at = put_number(out, at, *set as u32);
    }
    at
}

fn put_edit(out: &mut [u8], at: usize, edit: Edit) -> usize
    requires { (edit.cell < 128 ^ 3) × (at + length (edit_bytes limits edit) ≤ length out.old) }
    ensures { Put at (edit_bytes limits edit) out.old result out.new }
{
    let after_seat = put_number(out, at, edit.seat.0 as u32);
    let after_time = put_number(out, after_seat, edit.time.0 as u32);
    let after_cell = put_number(out, after_time, edit.cell);
    put_number(out, after_cell, map_change(edit.change) as u32)
}

// The four lists are walked by an index, as in `judge_edits`: with nested zips in its place `ricecrock_lists_write` takes 40 % longer.
// What the two do with an edit, and when they stop, differs: a function for both walks would be no plainer.
fn put_edits(out: &mut [u8], from: usize, lists: Lists) -> usize
    requires { All (λ edit. edit.cell < 128 ^ 3) (edits_in (tables_in lists)) × (length lists.times.now ≡ length lists.editors.now) × (length lists.cells.now ≡ length lists.editors.now) × (length lists.changes.now ≡ length lists.editors.now) × (from + length (edits_bytes limits (edits_in (tables_in lists))) ≤ length out.old) }
    ensures { Put from (edits_bytes limits (edits_in (tables_in lists.entry))) out.old result out.new }
{
    let mut at = from;
    for i in 0..lists.editors.len() {
        let edit = Edit {
            seat: Seat(lists.editors[i]),
            time: Time(lists.times[i]),
            cell: lists.cells[i],
            change: lists.changes[i],
        };
        at = put_edit(out, at, edit);
    }
    at
}

// Puts the whole record: header, losses, edits.
pub fn put_record(out: &mut [u8], accepted: Accepted) -> usize
    requires { length (bytes_of limits (record_in accepted.lists)) ≤ length out.old }
    ensures { Put 0 (bytes_of limits (record_in accepted.entry.lists)) out.old result out.new }
{
    let lists = accepted.lists;
    let after_header = put_header(out, lists);
    let after_losses = put_losses(out, after_header, lists.losses);
    put_edits(out, after_losses, lists)
}
