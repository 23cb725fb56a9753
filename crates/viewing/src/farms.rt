// A farm: its numbers, and the losses that settle what each seat sees.
use crate::sizes::Sizes;

// The loss sets stand round by round, and within a round sender by sender. How many seats there are, a farm does not say: `loss_set`,
// `was_lost` and `is_loser` ask for no limit, so the others ask in a `requires`.
#[derive(Clone, Copy)]
pub struct Farm<'a> {
    pub sizes: Sizes,
    pub losses: &'a [u16],
}
