// Numbers in decimal, shortest, each put at a place of a lent buffer. The answer is the place after it. The kit's `itoa` prints
// them into a buffer of its own, on the stack. A number with a sign has a function of its own: one for both would speak of the kit's text, and
// no law of completeness has a type parameter.
ghost use Rattle.std.specs.Prelude.{◌+◌, ◌≤◌, length};
ghost use Rattle.text.specs.Digits.{decimal, signed};
ghost use Rattle.text.specs.Putting.{PutsWithin};

use crate::words::put_word;
use itoa::Buffer;

pub fn put_number(out: &mut [u8], at: usize, value: u16) -> usize
    requires { at + 5 ≤ length out.old }
    ensures { PutsWithin 5 (decimal value) at out.old out.new result }
{
    let mut digits = Buffer::new();
    put_word(out, at, digits.format(value).as_bytes())
}

pub fn put_signed(out: &mut [u8], at: usize, value: i16) -> usize
    requires { at + 6 ≤ length out.old }
    ensures { PutsWithin 6 (signed value) at out.old out.new result }
{
    let mut number = Buffer::new();
    put_word(out, at, number.format(value).as_bytes())
}
