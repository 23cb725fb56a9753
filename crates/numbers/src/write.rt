// A number in its shortest form: how many bytes it takes, and its bytes in a buffer. The form is document 01's own.
ghost use Rattle.std.specs.Prelude.{◌≡◌, ◌+◌, ◌^◌, ◌<◌, ◌≤◌, length};
ghost use Rattle.farm.specs.Limits.{limits};
ghost use Rattle.record.specs.Numbers.{number_bytes};
ghost use Rattle.numbers.specs.Placing.{Put};

// How many bytes a number takes.
pub fn number_length(value: u32) -> usize
    ensures { result ≡ length (number_bytes limits value) }
{
    if value < 128 {
        return 1;
    }
    if value < 16_384 {
        return 2;
    }
    3
}

// Puts a number in its shortest form, and answers where the next one goes.
pub fn put_number(out: &mut [u8], at: usize, value: u32) -> usize
    requires { (value < 128 ^ 3) × (at + length (number_bytes limits value) ≤ length out.old) }
    ensures { Put at (number_bytes limits value) out.old result out.new }
{
    if value < 128 {
        out[at] = value as u8;
        return at + 1;
    }
    out[at] = (128 + value % 128) as u8;
    let high = value / 128;
    let second = at + 1;
    if high < 128 {
        out[second] = high as u8;
        return second + 1;
    }
    out[second] = (128 + high % 128) as u8;
    let third = second + 1;
    out[third] = (high / 128) as u8;
    third + 1
}
