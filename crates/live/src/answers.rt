// What a step on a table hands back.
use farm::refusals::Refusal;
use live_table::table::Table;

// A step by value: the answer to the call, and the table after it.
#[derive(Clone, Copy)]
pub struct Step {
    pub answer: Result<(), Refusal>,
    pub table: Table,
}
