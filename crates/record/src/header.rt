// The four numbers that a record begins with.
#[derive(Clone, Copy)]
pub struct Header {
    pub seats: u8,
    pub bound: u8,
    pub rounds: u16,
    pub edits: u16,
}
