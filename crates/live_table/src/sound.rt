// Refusal 19: whether the used part of a table is a good record. The table may hold anything, so its
// sizes are tested before the used part is cut out of the arrays.
ghost use Rattle.std.specs.Prelude.{◌≡◌};
ghost use Rattle.farm.specs.Limits.{limits};
ghost use Rattle.record.specs.Good.{good_record};
ghost use Rattle.live_table.specs.Used.{used_record};

use crate::table::Table;
use farm::limits::{MOST_EDITS, MOST_ROUNDS, MOST_SEATS};
use judging::lists::judge;
use record::lists::Lists;

// Whether the used part of a table is a good record: where not, 19 is given.
pub fn judge_table(table: &Table) -> bool
    ensures { result ≡ good_record limits (used_record table.now) }
{
    if MOST_SEATS < table.seats as u32
        || MOST_ROUNDS < table.rounds as u32
        || MOST_EDITS < table.edits as u32
    {
        return false;
    }
    // The used part stands here and in `write_out`: no clause can say where slices lie, so the law of completeness of a public function
    // that returns them was not to be proved.
    let sets = table.seats as usize * table.rounds as usize;
    let held = table.edits as usize;
    let used = Lists {
        seats: table.seats,
        bound: table.bound,
        rounds: table.rounds,
        losses: &table.losses[..sets],
        editors: &table.editors[..held],
        times: &table.times[..held],
        cells: &table.cells[..held],
        changes: &table.changes[..held],
    };
    judge(used).is_ok()
}
