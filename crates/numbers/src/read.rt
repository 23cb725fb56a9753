// Seven-bit numbers, read at a cursor: a value with the cursor behind it, or a refusal for the caller
// to hand up as it is.
ghost use Rattle.std.specs.Prelude.{◌≡◌};
ghost use Rattle.numbers.specs.Cursors.{number_at, within_at};

use farm::refusals::Refusal;

// A place in a byte string.
#[derive(Clone, Copy)]
pub struct Cursor {
    pub at: usize,
}

// The number that begins at a cursor, one, two or three bytes in the shortest form, and where the rest
// of the bytes begins.
pub fn read_number(bytes: &[u8], from: Cursor) -> Result<(u32, Cursor), Refusal>
    ensures { result ≡ number_at bytes.now from.at }
{
    let first = from.at;
    if bytes.len() <= first {
        return Err(Refusal::EndsEarly);
    }
    let low = bytes[first] as u32;
    let second = first + 1;
    if low < 128 {
        return Ok((low, Cursor { at: second }));
    }
    if bytes.len() <= second {
        return Err(Refusal::EndsEarly);
    }
    let middle = bytes[second] as u32;
    let third = second + 1;
    if middle == 0 {
        return Err(Refusal::BadForm);
    }
    if middle < 128 {
        return Ok((low - 128 + 128 * middle, Cursor { at: third }));
    }
    if bytes.len() <= third {
        return Err(Refusal::EndsEarly);
    }
    let high = bytes[third] as u32;
    if high == 0 {
        return Err(Refusal::BadForm);
    }
    if 128 <= high {
        return Err(Refusal::BadForm);
    }
    let value = low - 128 + 128 * (middle - 128 + 128 * high);
    Ok((value, Cursor { at: third + 1 }))
}

// A number that has to lie between two others, both included.
pub fn read_within(
    bytes: &[u8],
    from: Cursor,
    low: u32,
    high: u32,
) -> Result<(u32, Cursor), Refusal>
    ensures { result ≡ within_at low high bytes.now from.at }
{
    let (value, next) = read_number(bytes, from)?;
    if value < low || high < value {
        return Err(Refusal::OutOfRange);
    }
    Ok((value, next))
}
