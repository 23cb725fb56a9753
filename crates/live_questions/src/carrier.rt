// The live table as a carrier of a record: 19, or the header of the record in its used part.
ghost use Rattle.carriers.specs.Carried.{Carried};
ghost use Rattle.live_table.specs.Used.{table_reading};

use farm::refusals::Refusal;
use live_table::sound::judge_table;
use live_table::table::Table;
use record::header::Header;

// What a table reads as: 19, or the header of the record in its used part.
pub fn check_table(table: &Table) -> Result<Header, Refusal>
    ensures { Carried (table_reading table.now) result table.now.losses table.now.editors table.now.times }
{
    if !judge_table(table) {
        return Err(Refusal::BadTable);
    }
    Ok(Header {
        seats: table.seats,
        bound: table.bound,
        rounds: table.rounds,
        edits: table.edits,
    })
}
