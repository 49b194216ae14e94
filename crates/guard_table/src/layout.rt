// Where the parts of a guard table stand.
ghost use Rattle.std.specs.Prelude.{◌≡◌, ◌+◌, ◌≤◌};
ghost use Rattle.records.specs.Meaning.Limits.{max_inputs, max_ins, max_states};
ghost use Rattle.guard_table.specs.Meaning.GuardTable.{row_size, row_length, length_in, table_length, row_at, entry_at};
ghost use Rattle.guard_table.specs.Model.Inside.{row_most, table_most};

use crate::kind::RowKind;
use records::limits::Limits;
use records::numbers::pow2;

// The guard table's sizes, for so many input lines and rows of a kind.
#[derive(Clone, Copy)]
pub struct Layout {
    pub inputs: u8,
    pub kind: RowKind,
    ghost inputs_most: { inputs ≤ max_inputs },
}

impl Layout {
    // The kind of the head.
    pub const HEAD_KIND: u16 = 16;

    // A record's bytes before its body; the head's body; the head.
    pub const HEADER: usize = 4;

    pub const HEAD_SIZE: u16 = 6;

    pub const HEAD_LENGTH: usize = Layout::HEADER + Layout::HEAD_SIZE as usize;

    // Where the head's fields stand.
    pub const MODE: usize = 4;

    pub const INPUTS: usize = 5;

    pub const OUTPUTS: usize = 6;

    pub const HORIZON: usize = 7;

    pub const COUNT: usize = 8;

    // The bytes of a table that shows its first row's kind.
    pub const SHOWN: usize = Layout::HEAD_LENGTH + Layout::HEADER;

    // No entry is wider, and no table is longer: all states, with all inputs.
    pub const WIDTH: usize = 3;

    pub const MOST: usize = Layout::HEAD_LENGTH
        + Limits::STATES * (Layout::HEADER + Layout::WIDTH * Limits::INS);

    // The bytes of a row's body: an entry for each input.
    pub fn row_size(self) -> usize
        ensures { (result ≡ row_size self.kind self.inputs) × (result ≤ row_most) }
    {
        self.kind.width() * pow2(self.inputs)
    }

    // The bytes of a row's record.
    pub fn row_length(self) -> usize
        ensures { (result ≡ row_length self.kind self.inputs) × (result ≤ 4 + row_most) }
    {
        Layout::HEADER + self.row_size()
    }

    // Where the row of a state begins: after the head and the rows before it.
    pub fn row_at(self, place: usize) -> usize
        requires { place ≤ max_states }
        ensures { (result ≡ row_at self.kind self.inputs place) × (result ≤ table_most) }
    {
        Layout::HEAD_LENGTH + place * self.row_length()
    }

    // The bytes of a table with so many states: it ends where one row more would begin.
    pub fn table_length(self, count: usize) -> usize
        requires { count ≤ max_states }
        ensures { result ≡ length_in self.kind self.inputs count }
    {
        self.row_at(count)
    }

    // Where the entry of a state and an input stands.
    pub fn entry_at(self, place: usize, input: usize) -> usize
        requires { (place ≤ max_states) × (input ≤ max_ins) }
        ensures { result ≡ entry_at self.kind self.inputs place input }
    {
        self.row_at(place) + (Layout::HEADER + self.kind.width() * input)
    }
}

// The bytes of the table of a guard with so many states.
pub fn guard_length(inputs: u8, count: usize) -> usize
    requires { (inputs ≤ max_inputs) × (count ≤ max_states) }
    ensures { result ≡ table_length inputs count }
{
    let layout = Layout {
        inputs,
        kind: RowKind::of(count),
    };
    layout.table_length(count)
}
