// Lists that were judged to be a good record: such lists are counted and put with no further test.
ghost use Rattle.std.specs.Prelude.{◌≡◌};
ghost use Rattle.record.specs.Lent.{verdict_on};
ghost use Rattle.record.specs.Writing.{accepted};

use record::lists::Lists;

#[derive(Clone, Copy)]
pub struct Accepted<'a> {
    pub lists: Lists<'a>,
    ghost good: { verdict_on lists ≡ accepted },
}
