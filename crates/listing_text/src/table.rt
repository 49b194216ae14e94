// A guard table that is known to hold together, with what its readers ask of its head.
#![tactic(auto)]

ghost use Rattle.std.specs.Prelude.{◌≡◌, ◌≤◌, length};
ghost use Rattle.guard_table.specs.Meaning.GuardTable.{head_length, head_inputs, head_count};
ghost use Rattle.guard_table.specs.Model.Inside.{Closed};

use guard_table::layout::Layout;
use records::numbers::u16_at;

// A table's bytes, its inputs and its states; every next state is one of its own.
// That a state is one of the table's stands in contracts: a place of a type of its own would be made in every turn.
#[derive(Clone, Copy)]
pub struct ClosedTable<'a> {
    pub bytes: &'a [u8],
    pub inputs: u8,
    pub count: usize,
    ghost closed: { Closed bytes.now inputs count },
}

impl ClosedTable<'_> {
    // The table whose bytes these are.
    pub fn of(table: &[u8]) -> ClosedTable<'_>
        requires { (head_length ≤ length table.now) × Closed table.now (head_inputs table.now) (head_count table.now) }
        ensures bytes { result.bytes.now ≡ table.now }
        ensures inputs { result.inputs ≡ head_inputs table.now }
        ensures count { result.count ≡ head_count table.now }
    {
        ClosedTable {
            bytes: table,
            inputs: table[Layout::INPUTS],
            count: u16_at(table, Layout::COUNT) as usize,
        }
    }
}
