// The four numbers that a record begins with, each tested against its range as it is read.
ghost use Rattle.std.specs.Prelude.{◌≡◌};
ghost use Rattle.farm.specs.Limits.{limits};
ghost use Rattle.record.specs.Header.{take_header};
ghost use Rattle.numbers.specs.Cursors.{read_in};

use farm::limits::{FEWEST_SEATS, MOST_EDITS, MOST_ROUNDS, MOST_SEATS};
use farm::refusals::Refusal;
use numbers::read::{Cursor, read_within};
use record::header::Header;

// The header, and where the losses begin.
pub fn read_header(bytes: &[u8]) -> Result<(Header, Cursor), Refusal>
    ensures { result ≡ read_in bytes.now (take_header limits bytes.now) }
{
    let n = read_within(bytes, Cursor { at: 0 }, FEWEST_SEATS, MOST_SEATS);
    let Ok((seats, after_seats)) = n else {
        return Err(n.unwrap_err());
    };
    let t = read_within(bytes, after_seats, 0, seats - 1);
    let Ok((bound, after_bound)) = t else {
        return Err(t.unwrap_err());
    };
    let r = read_within(bytes, after_bound, 0, MOST_ROUNDS);
    let Ok((rounds, after_rounds)) = r else {
        return Err(r.unwrap_err());
    };
    let e = read_within(bytes, after_rounds, 0, MOST_EDITS);
    let Ok((edits, after_edits)) = e else {
        return Err(e.unwrap_err());
    };
    let header = Header {
        seats: seats as u8,
        bound: bound as u8,
        rounds: rounds as u16,
        edits: edits as u16,
    };
    Ok((header, after_edits))
}
