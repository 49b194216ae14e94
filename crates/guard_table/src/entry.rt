// An entry of a guard table: what a state answers at an input. Here it is read, written and tested; a load tests each by itself
// (`entry_in_range`, loadable.rt).
ghost use Rattle.std.specs.Prelude.{◌≡◌, ◌+◌, ◌<◌, ◌≤◌, length};
ghost use Rattle.std.proofs.lemmas.List.Edits.{sets};
ghost use Rattle.records.specs.Meaning.Limits.{max_outputs};
ghost use Rattle.guard_table.specs.Meaning.GuardTable.{kind_of, output_in, next_in, guard_entry};
ghost use Rattle.guard_table.specs.Meaning.Loadable.{entry_ok};
ghost use Rattle.guard_table.specs.Meaning.RowKind.{states_most, entry_width, next_at, next_bytes};
ghost use Rattle.guard_table.specs.Model.Inside.{Inside};

use crate::kind::{RowKind, kind_of};
use crate::layout::Layout;
use records::numbers::{pow2, put_u16, u16_at};

#[derive(Clone, Copy)]
pub struct Entry {
    pub output: u8,
    // the state after it
    pub next: u16,
}

// The next state that stands at an index, after the output.
pub(crate) fn next_at(kind: RowKind, table: &[u8], at: usize) -> u16
    requires { at + entry_width kind ≤ length table.now + 1 }
    ensures { result ≡ next_at kind table.now at }
{
    match kind {
        RowKind::Narrow => table[at] as u16,
        RowKind::Wide => u16_at(table, at),
    }
}

// The entry of a state and an input, in rows of the kind that the table shows.
fn entry_by(table: &[u8], layout: Layout, place: usize, input: usize) -> Entry
    requires shown { layout.kind ≡ kind_of table.now }
    requires inside { Inside table.now layout.inputs place input }
    ensures { (result.output ≡ output_in table.now layout.inputs place input)
        × (result.next ≡ next_in table.now layout.inputs place input) }
{
    let at = layout.entry_at(place, input);
    Entry {
        output: table[at],
        next: next_at(layout.kind, table, at + 1),
    }
}

// The same, where the kind is still to be read.
pub fn entry_in(table: &[u8], lines: u8, place: usize, input: usize) -> Entry
    requires { Inside table.now lines place input }
    ensures { (result.output ≡ output_in table.now lines place input) × (result.next ≡ next_in table.now lines place input) }
{
    let layout = Layout {
        inputs: lines,
        kind: kind_of(table),
    };
    entry_by(table, layout, place, input)
}

// Writes a next state at an index.
// An index, here and below: the promise says of the whole slice that all else stays.
fn put_next(res: &mut [u8], at: usize, kind: RowKind, next: u16)
    requires { (at + entry_width kind ≤ length res.old + 1) × (next < states_most kind) }
    ensures { res.new ≡ sets res.old at (next_bytes kind next) }
{
    match kind {
        RowKind::Narrow => res[at] = next as u8,
        RowKind::Wide => put_u16(res, at, next),
    }
}

// Writes an entry where it stands.
// An index and no cut of the slice: the promise says of the whole slice that all else stays.
pub fn put_entry(res: &mut [u8], at: usize, kind: RowKind, entry: Entry)
    requires { (at + entry_width kind ≤ length res.old) × (entry.next < states_most kind) }
    ensures { res.new ≡ sets res.old at (guard_entry kind entry.output entry.next) }
{
    res[at] = entry.output;
    put_next(res, at + 1, kind, entry.next);
}

// Whether the output and the next state are in range.
#[tactic(auto, using(records::specs::Laws::Tests::cases), unfolding(crate::specs::Meaning::Loadable::entry_ok))]
pub fn entry_ok(entry: Entry, outputs: u8, count: usize) -> bool
    requires { outputs ≤ max_outputs }
    ensures { result ≡ entry_ok entry.output entry.next outputs count }
{
    (entry.output as usize) < pow2(outputs) && (entry.next as usize) < count
}
