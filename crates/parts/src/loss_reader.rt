// The losses of a record: for each round, for each sending seat, the set of seats that its send did
// not reach. They are looked through here without a table.
ghost use Rattle.std.specs.Prelude.{◌≡◌, ◌<◌, ◌≤◌, length, drop};
ghost use Rattle.farm.specs.Limits.{limits};
ghost use Rattle.record.specs.Losses.{first_seat, take_set, take_round, take_rounds};
ghost use Rattle.numbers.specs.Cursors.{read_in, passed_in};

use farm::places::Seat;
use farm::refusals::Refusal;
use numbers::read::{Cursor, read_number};
use record::losses::good_set;

// The loss set of a sender, and where the next one begins. The set is tested when its number was taken.
pub fn read_set(
    bytes: &[u8],
    from: Cursor,
    seats: u8,
    sender: Seat,
) -> Result<(u32, Cursor), Refusal>
    requires { seats < 16 }
    ensures { result ≡ read_in bytes.now (take_set limits seats sender (drop from.at bytes.now)) }
{
    let number = read_number(bytes, from);
    let Ok((set, next)) = number else {
        return number;
    };
    if !good_set(seats, sender, set) {
        return Err(Refusal::BadLossSet);
    }
    Ok((set, next))
}

// The sets of one round, one for each sender, looked through to where the next round begins.
pub fn check_round(bytes: &[u8], from: Cursor, seats: u8) -> Result<Cursor, Refusal>
    requires { (seats < 16) × (from.at ≤ length bytes.now) }
    ensures { result ≡ passed_in bytes.now (take_round limits seats first_seat seats (drop from.at bytes.now)) }
{
    let mut at = from;
    for sender in 0..seats {
        let (_, next) = read_set(bytes, at, seats, Seat(sender))?;
        at = next;
    }
    Ok(at)
}

// All losses: the bytes after the header, to where the edits begin.
pub fn check_losses(bytes: &[u8], seats: u8, rounds: u16) -> Result<Cursor, Refusal>
    requires { seats < 16 }
    ensures { result ≡ passed_in bytes.now (take_rounds limits seats rounds bytes.now) }
{
    let mut at = Cursor { at: 0 };
    for _ in 0..rounds {
        at = check_round(bytes, at, seats)?;
    }
    Ok(at)
}
