// The lines of the page. Each is printed whole into a lent buffer, and the answer is the page's length up to its end; or it is
// refused where fewer than LINE_ROOM bytes are left, and a refusal changes no byte. No line is longer than LINE_ROOM.
ghost use Rattle.std.specs.Prelude.{◌≡◌, [], ◌∷◌, ◌+◌, ◌≤◌, leb, length};
ghost use Rattle.lines.specs.Lines.{header_line, place_line, over_line, refused_line, place_text, standing};
ghost use Rattle.text.specs.Putting.{PutsWithin};
ghost use Rattle.lines.specs.Printing.{Prints, line_room};

use farm::places::{Seat, Time};
use farm::refusals::Refusal;
use record::header::Header;
use text::digits::put_number;
use text::fields::{put_core, put_field, put_named, put_signed_field};
use text::words::put_word;

// Room for any line, in bytes.
pub const LINE_ROOM: usize = 96;

// What the page says of a seat at a time. Of the core the first `seats` numbers are printed, all
// seven where `seats` is more.
#[derive(Clone, Copy)]
pub struct PlaceLine {
    pub time: Time,
    pub seat: Seat,
    pub loser: bool,
    pub critical: i16,
    pub steps: u8,
    pub seats: u8,
    pub core: [i16; 7],
    pub count: u16,
}

// Whether a line has room at a place of a buffer of so many bytes.
fn has_room(length: usize, at: usize) -> bool
    ensures { result ≡ leb (at + line_room) length }
{
    LINE_ROOM <= length.saturating_sub(at)
}

// C for clean or L for loser.
fn letter(loser: bool) -> u8
    ensures { result ∷ [] ≡ standing loser }
{
    if loser { b'L' } else { b'C' }
}

// How a line about a seat at a time begins.
fn put_place(out: &mut [u8], at: usize, time: Time, seat: Seat, loser: bool) -> usize
    requires { at + 13 ≤ length out.old }
    ensures { PutsWithin 13 (place_text time seat loser) at out.old out.new result }
{
    let after_time = put_number(out, at, time.0);
    let after_seat = put_field(out, after_time, seat.0 as u16);
    out[after_seat] = b' ';
    out[after_seat + 1] = letter(loser);
    after_seat + 2
}

// The first line of a page: seats, bound, rounds and edits.
pub fn header_line(header: Header, out: &mut [u8]) -> Result<usize, Refusal>
    ensures { Prints (header_line header) 0 out.old out.new result }
{
    if !has_room(out.len(), 0) {
        return Err(Refusal::NoRoom);
    }
    let seats = put_named(out, 0, b"seats", header.seats as u16);
    let bound = put_named(out, seats, b" bound", header.bound as u16);
    let rounds = put_named(out, bound, b" rounds", header.rounds);
    let edits = put_named(out, rounds, b" edits", header.edits);
    out[edits] = b'\n';
    Ok(edits + 1)
}

// The line of a seat at a time, where the page ends so far.
pub fn place_line(line: PlaceLine, out: &mut [u8], at: usize) -> Result<usize, Refusal>
    ensures { Prints (place_line line) at out.old out.new result }
{
    if !has_room(out.len(), at) {
        return Err(Refusal::NoRoom);
    }
    let place = put_place(out, at, line.time, line.seat, line.loser);
    let critical = put_signed_field(out, place, line.critical);
    let steps = put_field(out, critical, line.steps as u16);
    let numbers = put_core(out, steps, line.core, line.seats);
    let count = put_field(out, numbers, line.count);
    out[count] = b'\n';
    Ok(count + 1)
}

// The line of a seat whose view shows more known seats than the bound, where the page ends so far.
pub fn over_line(
    time: Time,
    seat: Seat,
    loser: bool,
    out: &mut [u8],
    at: usize,
) -> Result<usize, Refusal>
    ensures { Prints (over_line time seat loser) at out.old out.new result }
{
    if !has_room(out.len(), at) {
        return Err(Refusal::NoRoom);
    }
    let place = put_place(out, at, time, seat, loser);
    Ok(put_word(out, place, b" over\n"))
}

// The one line of a page for a bad record, with the number of its refusal.
pub fn refused_line(number: u8, out: &mut [u8]) -> Result<usize, Refusal>
    ensures { Prints (refused_line number) 0 out.old out.new result }
{
    if !has_room(out.len(), 0) {
        return Err(Refusal::NoRoom);
    }
    let refused = put_named(out, 0, b"refused", number as u16);
    out[refused] = b'\n';
    Ok(refused + 1)
}
