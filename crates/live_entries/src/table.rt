// A table's lists of edits: one more behind those held, and the last of these. What lies past the used part stays.
ghost use Rattle.std.specs.Prelude.{◌≡◌, ◌<◌, ◌≤◌, None};
ghost use Rattle.record.specs.Faults.{last_of};
ghost use Rattle.live_entries.specs.Entries.{with_entry};
ghost use Rattle.live_table.specs.Used.{used_record};

use crate::lists;
use live_table::table::Table;
use record::edits::Edit;

// An edit behind those held. It is not counted here.
pub fn put_edit(table: &mut Table, edit: Edit)
    requires { table.old.edits < 512 }
    ensures { table.new ≡ with_entry edit table.old }
{
    let at = table.edits as usize;
    lists::put_edit(
        &mut table.editors,
        &mut table.times,
        &mut table.cells,
        &mut table.changes,
        at,
        edit,
    );
}

// The last of the edits held, which the next one has to come after.
#[tactic(auto, unfolding(live_table::specs::Used::used_record))]
pub fn last_held(table: &Table) -> Option<Edit>
    requires { table.now.edits ≤ 512 }
    ensures { result ≡ last_of None (used_record table.now).edits }
{
    let held = table.edits as usize;
    lists::last_held(
        &table.editors,
        &table.times,
        &table.cells,
        &table.changes,
        held,
    )
}
