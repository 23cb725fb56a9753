// A change of height as a number: 2 × d for d ≥ 0, and −2 × d − 1 below. The mapping is document 01's own.
ghost use Rattle.std.specs.Prelude.{◌≡◌};
ghost use Rattle.record.specs.Changes.{mapped, unmapped};

pub fn map_change(change: i16) -> u16
    ensures { result ≡ mapped change }
{
    let size = change.unsigned_abs();
    if change < 0 {
        return 2 * (size - 1) + 1;
    }
    2 * size
}

pub fn unmap_change(number: u16) -> i16
    ensures { result ≡ unmapped number }
{
    let half = (number / 2) as i16;
    if number % 2 == 0 {
        return half;
    }
    -1 - half
}
