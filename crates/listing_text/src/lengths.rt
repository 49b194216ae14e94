// How long the pieces of a listing are, so that it is known before any is put.
ghost use Rattle.std.specs.Prelude.{◌≡◌, ◌*◌, ◌^◌, ◌≤◌, ◌<◌, length};
ghost use Rattle.records.specs.Meaning.Limits.{max_states};
ghost use Rattle.records.specs.Meaning.Lists.{cat};
ghost use Rattle.guard_table.specs.Meaning.GuardTable.{head_length, head_inputs, head_count};
ghost use Rattle.guard_table.specs.Model.Inside.{Closed};
ghost use Rattle.listing_text.specs.Meaning.Listing.{decimal, head_line, entry_text, entry_of, row_of, listing_of};

use crate::table::ClosedTable;
use guard_table::entry::{Entry, entry_in};
use guard_table::layout::Layout;
use records::numbers::pow2;

// A number in decimal: one more than its logarithm, and one for 0.
pub fn number_length(n: usize) -> usize
    requires { n < 1000 }
    ensures { (result ≡ length (decimal n)) × (result ≤ 3) }
{
    n.max(1).ilog10() as usize + 1
}

// An entry: two marks and two numbers.
pub fn entry_length(entry: Entry) -> usize
    requires { entry.next < max_states }
    ensures { (result ≡ length (entry_text entry.output entry.next)) × (result ≤ 8) }
{
    2 + number_length(entry.output as usize) + number_length(entry.next as usize)
}

impl ClosedTable<'_> {
    // The entries of a state.
    pub fn entries_length(&self, k: usize) -> usize
        requires { k < self.now.count }
        ensures { (result ≡ length (cat (2 ^ self.now.inputs) (entry_of self.now.bytes.now self.now.inputs k))) × (result ≤ 128) }
    {
        let mut total: usize = 0;
        for i in 0..pow2(self.inputs) {
            total += entry_length(entry_in(self.bytes, self.inputs, k, i));
        }
        total
    }

    // The line of a state: its number, a colon, the entries, and the end.
    pub fn row_length(&self, k: usize) -> usize
        requires { k < self.now.count }
        ensures { (result ≡ length (row_of self.now.bytes.now self.now.inputs k)) × (result ≤ 133) }
    {
        2 + number_length(k) + self.entries_length(k)
    }

    // The lines of the states.
    pub fn rows_length(&self) -> usize
        ensures { (result ≡ length (cat self.now.count (row_of self.now.bytes.now self.now.inputs))) × (result ≤ 133 * max_states) }
    {
        let mut total: usize = 0;
        for k in 0..self.count {
            total += self.row_length(k);
        }
        total
    }
}

// The first line: four words of 33 letters together, four numbers, and the end.
pub fn head_length(count: usize, inputs: u8, outputs: u8, horizon: u8) -> usize
    requires { count < 1000 }
    ensures { (result ≡ length (head_line count inputs outputs horizon)) × (result ≤ 46) }
{
    34 + number_length(count)
        + number_length(inputs as usize)
        + number_length(outputs as usize)
        + number_length(horizon as usize)
}

// The listing of a table.
// Over bytes, as `put_listing` is, and no `ClosedTable`: the inputs and states of that need not be those in its head.
pub fn listing_length(table: &[u8]) -> usize
    requires { (head_length ≤ length table.now) × Closed table.now (head_inputs table.now) (head_count table.now) }
    ensures { result ≡ length (listing_of table.now) }
{
    let closed = ClosedTable::of(table);
    head_length(
        closed.count,
        closed.inputs,
        table[Layout::OUTPUTS],
        table[Layout::HORIZON],
    ) + closed.rows_length()
}
