// The host's table: a record in the making, as plain numbers and arrays. The used part is the header,
// the loss sets of the rounds done and the edits held; what lies past it is never looked at.

#[repr(C)]
#[derive(Clone, Copy)]
pub struct Table {
    pub seats: u8,
    pub bound: u8,
    pub rounds: u16,
    pub edits: u16,
    // For each round, for each sender, the set of seats that the send did not reach.
    pub losses: [u16; 889],
    // The edits, as four parallel lists, as C has them: who made it, when, where, and by how much.
    pub editors: [u8; 512],
    pub times: [u16; 512],
    pub cells: [u32; 512],
    pub changes: [i16; 512],
}
