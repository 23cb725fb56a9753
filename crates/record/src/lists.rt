// A record as somebody else's lists: the loss sets, and for each field of the edits a list of its own. The meaning of
// such lists stands in specs/Lent.antt.

#[derive(Clone, Copy)]
pub struct Lists<'a> {
    pub seats: u8,
    pub bound: u8,
    pub rounds: u16,
    pub losses: &'a [u16],
    pub editors: &'a [u8],
    pub times: &'a [u16],
    pub cells: &'a [u32],
    pub changes: &'a [i16],
}
