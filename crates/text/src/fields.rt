// What follows in a line: a blank, and then a number. Each is put at a place of a lent buffer, and the
// answer is the place after it.
ghost use Rattle.std.specs.Prelude.{◌∷◌, ◌++◌, map, ◌+◌, ◌≤◌, length, take};
ghost use Rattle.text.specs.Digits.{decimal, signed};
ghost use Rattle.text.specs.Putting.{PutsWithin};
ghost use Rattle.text.specs.Words.{blank, following};

use crate::digits::{put_number, put_signed};
use crate::words::put_word;

pub fn put_field(out: &mut [u8], at: usize, value: u16) -> usize
    requires { at + 6 ≤ length out.old }
    ensures { PutsWithin 6 (blank ∷ decimal value) at out.old out.new result }
{
    out[at] = b' ';
    put_number(out, at + 1, value)
}

pub fn put_signed_field(out: &mut [u8], at: usize, value: i16) -> usize
    requires { at + 7 ≤ length out.old }
    ensures { PutsWithin 7 (blank ∷ signed value) at out.old out.new result }
{
    out[at] = b' ';
    put_signed(out, at + 1, value)
}

// A name, and the number after it.
pub fn put_named(out: &mut [u8], at: usize, name: &[u8], value: u16) -> usize
    requires { at + (length name.now + 6) ≤ length out.old }
    ensures { PutsWithin (length name.now + 6) (name.now ++ blank ∷ decimal value) at out.old out.new result }
{
    let number = put_word(out, at, name);
    put_field(out, number, value)
}

// The core numbers of the first seats, each in at most seven bytes.
pub fn put_core(out: &mut [u8], at: usize, core: [i16; 7], seats: u8) -> usize
    requires { at + 49 ≤ length out.old }
    ensures { PutsWithin 49 (following (map signed (take seats core))) at out.old out.new result }
{
    let mut place = at;
    for number in &core[..seats.min(7) as usize] {
        place = put_signed_field(out, place, *number);
    }
    place
}
