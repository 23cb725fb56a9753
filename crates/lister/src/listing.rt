// The page of what was taken from standard input.
ghost use Rattle.std.specs.Prelude.{◌≡◌, length};
ghost use Rattle.taking.specs.Input.{input_room};
ghost use Rattle.lister.specs.Listing.{Lists};

use crate::input::take_input;
use farm::refusals::Refusal;
use page::whole::write_page;
use std::io::{self, Stdin};

// How many bytes were taken, and the length of their page.
#[derive(Clone, Copy)]
pub struct Listed {
    pub taken: usize,
    pub page: Result<usize, Refusal>,
}

// Takes the input and writes the page of exactly what was taken: of the bytes at the front of the buffer, up to their count.
pub fn list_input(stdin: &mut Stdin, buffer: &mut [u8], page: &mut [u8]) -> io::Result<Listed>
    requires { length buffer.old ≡ input_room }
    ensures { Lists buffer.new page.old page.new result }
{
    let taken = take_input(stdin, buffer)?;
    Ok(Listed {
        taken,
        page: write_page(&buffer[..taken], page),
    })
}
