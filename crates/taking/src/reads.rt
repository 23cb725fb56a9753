// What follows an answer of `read`, until the room for a record is full or the input ends.
ghost use Rattle.std.specs.Prelude.{◌≡◌, ◌-◌};
ghost use Rattle.taking.specs.Input.{Within, input_room, next_of};

use std::io;
use std::ops::ControlFlow;

// The longest good record, and one byte more: enough to see that a record is too long.
pub const TAKEN: usize = 4_991;

// What follows where `read` was lent the part of the buffer behind the bytes taken, and answered so: another read, with so many
// bytes taken, or the end of the taking, with so many bytes at the front of the buffer. A failure is handed up.
#[tactic(auto, using(crate::proofs::InputLaws::read_steps))]
pub fn after_read(taken: usize, got: io::Result<usize>) -> io::Result<ControlFlow<usize, usize>>
    requires { Within (input_room - taken) got }
    ensures { result ≡ next_of taken got }
{
    let count = got?;
    let now = taken + count;
    if count == 0 || TAKEN <= now {
        return Ok(ControlFlow::Break(now));
    }
    Ok(ControlFlow::Continue(now))
}
