// What a question needs of a record's bytes: all of it is read, and the loss sets and the places of the
// edits stay.
ghost use Rattle.std.specs.Prelude.{◌≡◌};
ghost use Rattle.record.specs.Answers.{checked_of};
ghost use Rattle.record.specs.Document.{reading_of};
ghost use Rattle.carriers.specs.Carried.{Carried};
ghost use Rattle.carriers.specs.Loading.{losses_left, seats_left, times_left};

use farm::limits::{TABLE_EDITS, TABLE_LOSS_SETS};
use farm::refusals::Refusal;
use reading::tables::read;
use record::header::Header;

// Room for the loss sets of any record, and for the seats and times of its edits. The page has such room once, in place.
#[derive(Clone, Copy)]
pub struct Room {
    pub losses: [u16; TABLE_LOSS_SETS],
    pub editors: [u8; TABLE_EDITS],
    pub times: [u16; TABLE_EDITS],
}

// Room that nothing was read into.
pub const EMPTY: Room = Room {
    losses: [0; TABLE_LOSS_SETS],
    editors: [0; TABLE_EDITS],
    times: [0; TABLE_EDITS],
};

// The loss sets, and the seats and times of the edits, each in front of its list. What lies behind them stays, and so does all of the
// room after a refusal.
pub fn read_places(bytes: &[u8], room: &mut Room) -> Result<Header, Refusal>
    ensures { (result ≡ checked_of (reading_of bytes.now))
        × (room.new.losses ≡ losses_left (reading_of bytes.now) room.old.losses)
        × (room.new.editors ≡ seats_left (reading_of bytes.now) room.old.editors)
        × (room.new.times ≡ times_left (reading_of bytes.now) room.old.times)
        × Carried (reading_of bytes.now) result room.new.losses room.new.editors room.new.times }
{
    let mut cells = [0; TABLE_EDITS];
    let mut changes = [0; TABLE_EDITS];
    read(
        bytes,
        &mut room.losses,
        &mut room.editors,
        &mut room.times,
        &mut cells,
        &mut changes,
    )
}
