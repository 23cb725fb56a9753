// The bytes that are taken from standard input. The kit's contract of `read` says how many bytes came and nothing of which they
// are, so no contract here can say it either: that they are the next bytes of the input, at the front of what was lent, is
// POSIX's word. What is proved is how many are asked for, and what follows each answer.
ghost use Rattle.std.specs.Prelude.{◌≡◌, length};
ghost use Rattle.taking.specs.Input.{Within, input_room};

use std::io::{self, Read, Stdin};
use std::ops::ControlFlow;
use taking::reads::after_read;

// Reads until the buffer is full or the input ends, and hands a failure up. The answer is how many bytes were taken. It is a `loop`,
// since each read goes behind the bytes that are there.
pub fn take_input(stdin: &mut Stdin, buffer: &mut [u8]) -> io::Result<usize>
    requires { length buffer.old ≡ input_room }
    ensures { Within input_room result }
{
    let mut taken = 0;
    loop {
        let got = stdin.read(&mut buffer[taken..]);
        match after_read(taken, got)? {
            ControlFlow::Continue(now) => taken = now,
            ControlFlow::Break(all) => return Ok(all),
        }
    }
}
