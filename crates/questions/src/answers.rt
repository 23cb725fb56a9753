// What a question answers where it is not refused. The meaning of each case stands in specs/Answers.antt. Times by value are seven, as C has them.

// What the construction settles, beside the core: critical time, kept set and count of steps.
#[derive(Clone, Copy)]
pub struct Summary {
    pub critical: i16,
    pub kept: u16,
    pub steps: u8,
}

// Whether a seat lost a send in any round of the record.
#[derive(Clone, Copy)]
pub enum Standing {
    Clean,
    Loser,
}

// What a seat has seen: for each seat the latest time or -1 for none, and the known set. The entries from n on
// are -1.
#[derive(Clone, Copy)]
pub struct Seen {
    pub latest: [i16; 7],
    pub known: u16,
}

// What the page says of a place: the settled answer, the core as in `Seen`, and how many edits are in it.
#[derive(Clone, Copy)]
pub struct Agreed {
    pub summary: Summary,
    pub latest: [i16; 7],
    pub count: u16,
}
