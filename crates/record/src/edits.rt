// A change of height that one seat made to one cell at one time, and the order of edits.
ghost use Rattle.std.specs.Prelude.{◌≡◌};
ghost use Rattle.record.specs.Edits.{rises, follows};

use farm::places::{Seat, Time};

#[derive(Clone, Copy)]
pub struct Edit {
    pub seat: Seat,
    pub time: Time,
    pub cell: u32,
    pub change: i16,
}

// Whether an edit comes before another: by time, then seat, then cell.
#[tactic(auto, unfolding(crate::specs::Edits::rises))]
pub fn rises_to(a: Edit, b: Edit) -> bool
    ensures { result ≡ rises a b }
{
    (a.time, a.seat, a.cell) < (b.time, b.seat, b.cell)
}

// Whether an edit may stand behind the one before it; the first has none before it.
#[tactic(auto, unfolding(crate::specs::Edits::follows))]
pub fn comes_after(before: Option<Edit>, edit: Edit) -> bool
    ensures { result ≡ follows before edit }
{
    match before {
        None => true,
        Some(last) => rises_to(last, edit),
    }
}
