// Which slices are guard tables that a board may load.
ghost use Rattle.std.specs.Prelude.{◌≡◌, true, false, ◌^◌, ◌<◌, ◌≤◌, length, MatchOption};
ghost use Rattle.records.specs.Meaning.Limits.{max_inputs, max_outputs};
ghost use Rattle.guard_table.specs.Meaning.GuardTable.{head_inputs, head_outputs, head_count, head_mode, head_horizon, shown_length, kind_of, output_in, next_in};
ghost use Rattle.guard_table.specs.Meaning.Loadable.{size_ok, fields_ok, table_head_ok, entry_ok, entries_ok, row_ok, rows_ok, loadable};
ghost use Rattle.guard_table.specs.Model.Entries.{entry_passes};
ghost use Rattle.guard_table.specs.Model.Inside.{Sized};

use crate::entry::next_at;
use crate::heads::{head_is, row_is};
use crate::kind::{RowKind, shown_kind};
use crate::layout::Layout;
use records::limits::{Limits, horizon_ok, lines_ok};
use records::numbers::{pow2, u16_at};

// What a head says, with the kind of the rows after it.
#[derive(Clone, Copy)]
struct Head {
    kind: RowKind,
    mode: u8,
    inputs: u8,
    outputs: u8,
    horizon: u8,
    count: u16,
}

impl Head {
    // The fields of the head that a slice begins with.
    fn read(t: &[u8], kind: RowKind) -> Head
        requires { shown_length ≤ length t.now }
        ensures { result ≡ record {
          kind = kind;
          mode = head_mode t.now;
          inputs = head_inputs t.now;
          outputs = head_outputs t.now;
          horizon = head_horizon t.now;
          count = head_count t.now;
        } }
    {
        Head {
            kind,
            mode: t[Layout::MODE],
            inputs: t[Layout::INPUTS],
            outputs: t[Layout::OUTPUTS],
            horizon: t[Layout::HORIZON],
            count: u16_at(t, Layout::COUNT),
        }
    }

    // Whether the count is in range for rows of the kind, and a slice of this size is as long as a table of so many states.
    fn size_ok(&self, size: usize) -> bool
        requires { self.now.inputs ≤ max_inputs }
        ensures { result ≡ size_ok self.now.kind self.now.inputs self.now.count size }
    {
        let layout = Layout {
            inputs: self.inputs,
            kind: self.kind,
        };
        let count = self.count as usize;
        1 <= count && count <= self.kind.states() && size == layout.table_length(count)
    }

    // Whether the fields are in range, and a slice of this size is as long as they say.
    fn fields_ok(&self, size: usize) -> bool
        ensures { result ≡ fields_ok self.now.kind self.now.mode self.now.inputs self.now.outputs self.now.horizon self.now.count size }
    {
        lines_ok(self.mode, self.inputs, self.outputs)
            && horizon_ok(self.inputs, self.horizon)
            && self.size_ok(size)
    }
}

// A slice that is as long as a table of its states, and what its head says of its rows.
// That a state is one of the table's stands in contracts: a place of a type of its own would be made in every turn.
#[derive(Clone, Copy)]
struct SizedTable<'a> {
    bytes: &'a [u8],
    layout: Layout,
    outputs: u8,
    count: usize,
    ghost shown: { layout.kind ≡ kind_of bytes.now },
    ghost sized: { Sized bytes.now layout.inputs count },
    ghost outputs_most: { outputs ≤ max_outputs },
}

impl SizedTable<'_> {
    // Whether a state's entry at an input is in range.
    // No `Entry`: where both its parts are read first the compiler tests the next state before the output, and a load of narrow rows takes a
    // quarter more time.
    fn entry_in_range(&self, place: usize, input: usize) -> bool
        requires state { place < self.now.count }
        requires input { input < 2 ^ self.now.layout.inputs }
        ensures { result ≡ entry_ok (output_in self.now.bytes.now self.now.layout.inputs place input)
            (next_in self.now.bytes.now self.now.layout.inputs place input) self.now.outputs self.now.count }
    {
        let at = self.layout.entry_at(place, input);
        if pow2(self.outputs) <= self.bytes[at] as usize {
            return false;
        }
        (next_at(self.layout.kind, self.bytes, at + 1) as usize) < self.count
    }

    // Whether a state's entry at an input is in range, if there is such an input.
    fn entry_passes(&self, place: usize, input: usize) -> bool
        requires { place < self.now.count }
        ensures { result ≡ entry_passes self.now.bytes.now self.now.layout.inputs self.now.outputs self.now.count place input }
    {
        pow2(self.layout.inputs) <= input || self.entry_in_range(place, input)
    }

    // Whether every entry of a state's row is in range. Tested are as many inputs as there can be: since the number of turns is fixed, the
    // compiler writes them out.
    fn entries_ok(&self, place: usize) -> bool
        requires { place < self.now.count }
        ensures { result ≡ entries_ok self.now.bytes.now self.now.layout.inputs self.now.outputs self.now.count place }
    {
        (0..Limits::INS).all(|input| self.entry_passes(place, input))
    }

    // Whether the row of a state is in order.
    fn row_ok(&self, place: usize) -> bool
        requires { place < self.now.count }
        ensures { result ≡ row_ok self.now.bytes.now self.now.layout.inputs self.now.outputs self.now.count place }
    {
        let size = self.layout.row_size();
        let at = self.layout.row_at(place);
        row_is(self.bytes, at, size as u16, self.layout.kind) && self.entries_ok(place)
    }

    // Whether the row of every state is in order.
    fn rows_ok(&self) -> bool
        ensures { result ≡ rows_ok self.now.bytes.now self.now.layout.inputs self.now.outputs self.now.count }
    {
        (0..self.count).all(|place| self.row_ok(place))
    }
}

// The slice as a table, if its head is a guard table's.
fn headed(t: &[u8]) -> Option<SizedTable<'_>>
    ensures { MatchOption result (table_head_ok t.now ≡ false) (λ s. (table_head_ok t.now ≡ true)
        × (s.bytes.now ≡ t.now) × (s.layout.inputs ≡ head_inputs t.now)
        × (s.outputs ≡ head_outputs t.now) × (s.count ≡ head_count t.now)) }
{
    let kind = shown_kind(t)?;
    if !head_is(t) {
        return None;
    }
    let head = Head::read(t, kind);
    if !head.fields_ok(t.len()) {
        return None;
    }
    let layout = Layout {
        inputs: head.inputs,
        kind,
    };
    Some(SizedTable {
        bytes: t,
        layout,
        outputs: head.outputs,
        count: head.count as usize,
    })
}

// Whether the slice is a table to load.
pub fn is_loadable(t: &[u8]) -> bool
    ensures { result ≡ loadable t.now }
{
    match headed(t) {
        Some(table) => table.rows_ok(),
        None => false,
    }
}
