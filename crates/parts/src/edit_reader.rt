// The edit reader: one edit at a cursor, and all edits in the part of the record after the losses.
ghost use Rattle.std.specs.Prelude.{◌≡◌, ◌<◌, drop, None};
ghost use Rattle.farm.specs.Limits.{limits};
ghost use Rattle.record.specs.Edits.{take_edit, take_edits};
ghost use Rattle.numbers.specs.Cursors.{read_in, passed_in};

use farm::limits::{LARGEST_CELL, LARGEST_MAPPED_CHANGE};
use farm::places::{Seat, Time};
use farm::refusals::Refusal;
use numbers::read::{Cursor, read_within};
use record::changes::unmap_change;
use record::edits::{Edit, comes_after};

// The edit that begins at a cursor, each field tested against its range as it is read, and where the
// next one begins.
pub fn read_edit(
    bytes: &[u8],
    from: Cursor,
    seats: u8,
    rounds: u16,
) -> Result<(Edit, Cursor), Refusal>
    requires { 0 < seats }
    ensures { result ≡ read_in bytes.now (take_edit limits seats rounds (drop from.at bytes.now)) }
{
    let s = read_within(bytes, from, 0, seats as u32 - 1);
    let Ok((seat, after_seat)) = s else {
        return Err(s.unwrap_err());
    };
    let t = read_within(bytes, after_seat, 0, rounds as u32);
    let Ok((time, after_time)) = t else {
        return Err(t.unwrap_err());
    };
    let c = read_within(bytes, after_time, 0, LARGEST_CELL);
    let Ok((cell, after_cell)) = c else {
        return Err(c.unwrap_err());
    };
    let d = read_within(bytes, after_cell, 0, LARGEST_MAPPED_CHANGE);
    let Ok((change, after_change)) = d else {
        return Err(d.unwrap_err());
    };
    let edit = Edit {
        seat: Seat(seat as u8),
        time: Time(time as u16),
        cell,
        change: unmap_change(change as u16),
    };
    Ok((edit, after_change))
}

// All edits: the bytes after the losses, to where the last edit ends. The order is tested when an
// edit is complete.
pub fn check_edits(bytes: &[u8], seats: u8, rounds: u16, edits: u16) -> Result<Cursor, Refusal>
    requires { 0 < seats }
    ensures { result ≡ passed_in bytes.now (take_edits limits seats rounds edits None bytes.now) }
{
    let mut at = Cursor { at: 0 };
    let mut before = None;
    for _ in 0..edits {
        let (edit, next) = read_edit(bytes, at, seats, rounds)?;
        if !comes_after(before, edit) {
            return Err(Refusal::BadOrder);
        }
        at = next;
        before = Some(edit);
    }
    Ok(at)
}
