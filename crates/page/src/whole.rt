// The page of a record given as bytes, into a lent buffer with room for any page. A refusal for want of
// room changes no byte, and bytes past the page stay.
ghost use Rattle.std.specs.Prelude.{◌≤◌, length};
ghost use Rattle.record.specs.Document.{reading_of};
ghost use Rattle.text.specs.Putting.{PutsWithin};
ghost use Rattle.page.specs.Page.{page_of};
ghost use Rattle.page.specs.Printing.{Holds, PrintsPage, page_held, page_room};

use construction::losers::losers_by;
use farm::limits::{TABLE_EDITS, TABLE_LOSS_SETS};
use farm::places::Time;
use farm::refusals::{Refusal, number};
use lines::printing::{header_line, refused_line};
use reading::tables::read;
use record::header::Header;
use telling::edit_places::EditPlaces;
use time_lines::places::put_times;
use viewing::farms::Farm;
use viewing::sizes::Sizes;

// Room for any page, in bytes: a first line, and seven lines for each of 128 times.
pub const PAGE_ROOM: usize = 86_112;

// The first line, and the lines of all times, of a good record at the front of the tables.
fn put_page(losses: &[u16], editors: &[u8], times: &[u16], header: Header, out: &mut [u8]) -> usize
    requires { Holds header losses.now editors.now times.now × (page_room ≤ length out.old) }
    ensures { PutsWithin page_room (page_held header losses.now editors.now times.now) 0 out.old out.new result }
{
    // The farm and the places of its edits are made here as in `carriers`, cut to the used part; live_table/src/sound.rt says why no public
    // function hands them out.
    let sets = header.seats as usize * header.rounds as usize;
    let held = header.edits as usize;
    let farm = Farm {
        sizes: Sizes {
            seats: header.seats,
            bound: header.bound,
            rounds: header.rounds,
        },
        losses: &losses[..sets],
    };
    let edits = EditPlaces {
        editors: &editors[..held],
        times: &times[..held],
    };
    let losers = losers_by(farm, Time(header.rounds));
    let end = header_line(header, out).unwrap();
    put_times(farm, edits, losers, out, end)
}

pub fn write_page(bytes: &[u8], out: &mut [u8]) -> Result<usize, Refusal>
    ensures { PrintsPage (page_of (reading_of bytes.now)) out.old out.new result }
{
    if out.len() < PAGE_ROOM {
        return Err(Refusal::NoRoom);
    }
    let mut losses = [0; TABLE_LOSS_SETS];
    let mut editors = [0; TABLE_EDITS];
    let mut times = [0; TABLE_EDITS];
    let mut cells = [0; TABLE_EDITS];
    let mut changes = [0; TABLE_EDITS];
    let checked = read(
        bytes,
        &mut losses,
        &mut editors,
        &mut times,
        &mut cells,
        &mut changes,
    );
    match checked {
        Ok(header) => Ok(put_page(&losses, &editors, &times, header, out)),
        Err(refusal) => refused_line(number(refusal), out),
    }
}
