// The numbers of a farm, in the order of document 01.
#[derive(Clone, Copy)]
pub struct Sizes {
    // n
    pub seats: u8,
    // t
    pub bound: u8,
    // R
    pub rounds: u16,
}
