// The head of a guard table, and the headers of its records.
ghost use Rattle.std.specs.Prelude.{◌≡◌, ◌+◌, ◌<◌, ◌≤◌, length};
ghost use Rattle.std.proofs.lemmas.List.Edits.{sets};
ghost use Rattle.records.specs.Meaning.Records.{header};
ghost use Rattle.guard_table.specs.Meaning.GuardTable.{head_kind, head_size, head_length, row_size, row_at, header_is, guard_head};
ghost use Rattle.guard_table.specs.Meaning.RowKind.{kind_number};
ghost use Rattle.guard_table.specs.Model.Inside.{RowInside};

use crate::kind::RowKind;
use crate::layout::Layout;
use crate::part::{Part, part_at};
use records::cursor::put_header;
use records::numbers::{put_u16, u16_at};

// Whether the slice begins with the header of a head.
pub fn head_is(t: &[u8]) -> bool
    requires { 3 < length t.now }
    ensures { result ≡ header_is t.now 0 head_size head_kind }
{
    u16_at(t, 0) == Layout::HEAD_SIZE && part_at(t, 0) == Part::Head
}

// Whether a row's header, of this size and this kind, stands at an index.
pub fn row_is(t: &[u8], at: usize, size: u16, kind: RowKind) -> bool
    requires { at + 3 < length t.now }
    ensures { result ≡ header_is t.now at size (kind_number kind) }
{
    if u16_at(t, at) != size {
        return false;
    }
    match part_at(t, at) {
        Part::Row(found) => found.same(kind),
        Part::Head => false,
        Part::Other => false,
    }
}

// Writes the head, at the start of the result.
// Five numbers and no struct: one would be made for this call alone.
pub fn put_head(res: &mut [u8], mode: u8, inputs: u8, outputs: u8, horizon: u8, count: u16)
    requires { head_length ≤ length res.old }
    ensures { res.new ≡ sets res.old 0 (guard_head mode inputs outputs horizon count) }
{
    put_header(res, 0, Layout::HEAD_SIZE, Layout::HEAD_KIND);
    res[Layout::MODE] = mode;
    res[Layout::INPUTS] = inputs;
    res[Layout::OUTPUTS] = outputs;
    res[Layout::HORIZON] = horizon;
    put_u16(res, Layout::COUNT, count);
}

// Writes the header of a state's row.
pub fn put_row_header(res: &mut [u8], layout: Layout, place: usize)
    requires { RowInside res.old layout.kind layout.inputs place }
    ensures { res.new
        ≡ sets res.old (row_at layout.kind layout.inputs place)
        (header (row_size layout.kind layout.inputs) (kind_number layout.kind)) }
{
    let size = layout.row_size();
    put_header(res, layout.row_at(place), size as u16, layout.kind.number());
}
