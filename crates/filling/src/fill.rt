// The second pass: a record that the first pass found good goes into lent tables. It is proved to meet no refusal; the code
// still hands on whatever a reader answers, as the first pass does.
ghost use Rattle.std.specs.Prelude.{◌≡◌, ◌<◌, ◌≤◌, ◌*◌, length, drop, [], true, None};
ghost use Rattle.farm.specs.Limits.{limits};
ghost use Rattle.record.specs.Edits.{take_edit, take_edits};
ghost use Rattle.numbers.specs.Cursors.{read_in, passed_in};
ghost use Rattle.filling.specs.Filling.{Gives, given, take_numbers, AllBelow, EditsFilled};
ghost use Rattle.record.specs.Tables.{over, tables, Accepted, TablesRead, roomy};
ghost use Rattle.record.specs.Document.{reading_of};
ghost use Rattle.record.specs.Answers.{checked_of};

use farm::places::{Seat, Time};
use farm::refusals::Refusal;
use numbers::read::{Cursor, read_number};
use parts::header_reader::read_header;
use record::changes::unmap_change;
use record::edits::Edit;
use record::header::Header;

// The loss sets of a good record, and where the edits begin.
pub fn fill_losses(bytes: &[u8], count: usize, losses: &mut [u16]) -> Result<Cursor, Refusal>
    requires { (Gives (take_numbers limits count bytes.now)) × (AllBelow 65536 (given (take_numbers limits count bytes.now))) × (count ≤ length losses.old) }
    ensures { (result ≡ passed_in bytes.now (take_numbers limits count bytes.now)) × (losses.new ≡ over 0 (given (take_numbers limits count bytes.now)) losses.old) }
{
    let mut at = Cursor { at: 0 };
    for i in 0..count {
        let (set, next) = read_number(bytes, at)?;
        losses[i] = set as u16;
        at = next;
    }
    Ok(at)
}

// An edit that the first pass accepted for so many seats and rounds: its numbers are not tested again, so that only the
// contract speaks of these two.
// With `read_edit` in its place `ricecrock_bytes_read` takes 82 % longer, and 8 % longer where it is always inlined.
fn read_accepted(bytes: &[u8], from: Cursor, n: u8, rounds: u16) -> Result<(Edit, Cursor), Refusal>
    requires { Gives (take_edit limits n rounds (drop from.at bytes.now)) }
    ensures { result ≡ read_in bytes.now (take_edit limits n rounds (drop from.at bytes.now)) }
{
    let s = read_number(bytes, from);
    let Ok((seat, after_seat)) = s else {
        return Err(s.unwrap_err());
    };
    let t = read_number(bytes, after_seat);
    let Ok((time, after_time)) = t else {
        return Err(t.unwrap_err());
    };
    let c = read_number(bytes, after_time);
    let Ok((cell, after_cell)) = c else {
        return Err(c.unwrap_err());
    };
    let d = read_number(bytes, after_cell);
    let Ok((change, after_change)) = d else {
        return Err(d.unwrap_err());
    };
    let edit = Edit {
        seat: Seat(seat as u8),
        time: Time(time as u16),
        cell,
        change: unmap_change(change as u16),
    };
    Ok((edit, after_change))
}

// The edits of a good record of n seats, field by field into four lists.
pub fn fill_edits(
    bytes: &[u8],
    n: u8,
    rounds: u16,
    count: usize,
    seats: &mut [u8],
    times: &mut [u16],
    cells: &mut [u32],
    changes: &mut [i16],
) -> Result<Cursor, Refusal>
    requires { (0 < n) × (Gives (take_edits limits n rounds count None bytes.now)) × (count ≤ length seats.old) × (count ≤ length times.old) × (count ≤ length cells.old) × (count ≤ length changes.old) }
    ensures { (result ≡ passed_in bytes.now (take_edits limits n rounds count None bytes.now)) × EditsFilled (given (take_edits limits n rounds count None bytes.now)) (tables [] seats.old times.old cells.old changes.old) (tables [] seats.new times.new cells.new changes.new) }
{
    let mut at = Cursor { at: 0 };
    for i in 0..count {
        let (edit, next) = read_accepted(bytes, at, n, rounds)?;
        seats[i] = edit.seat.0;
        times[i] = edit.time.0;
        cells[i] = edit.cell;
        changes[i] = edit.change;
        at = next;
    }
    Ok(at)
}

// All of a good record into tables with room for any record, and its header. The five lists come one by one, as C lends them.
pub fn fill(
    bytes: &[u8],
    losses: &mut [u16],
    seats: &mut [u8],
    times: &mut [u16],
    cells: &mut [u32],
    changes: &mut [i16],
) -> Result<Header, Refusal>
    requires { (Accepted (reading_of bytes.now)) × (roomy limits (tables losses.old seats.old times.old cells.old changes.old) ≡ true) }
    ensures { (result ≡ checked_of (reading_of bytes.now)) × TablesRead (reading_of bytes.now) (tables losses.old seats.old times.old cells.old changes.old) (tables losses.new seats.new times.new cells.new changes.new) }
{
    let (header, after_header) = read_header(bytes)?;
    let part = &bytes[after_header.at..];
    let count = header.rounds as usize * header.seats as usize;
    let after_losses = fill_losses(part, count, losses)?;
    fill_edits(
        &part[after_losses.at..],
        header.seats,
        header.rounds,
        header.edits as usize,
        seats,
        times,
        cells,
        changes,
    )?;
    Ok(header)
}
