// Where the places of all edits are handed on: for each edit its editor and its time, as two lists of one length.
ghost use Rattle.std.specs.Prelude.{◌≡◌, length};

#[derive(Clone, Copy)]
pub struct EditPlaces<'a> {
    pub editors: &'a [u8],
    pub times: &'a [u16],
    ghost parallel: { length times.now ≡ length editors.now },
}
