// The records of a guard table, told by their kinds.
ghost use Rattle.std.specs.Prelude.{◌≡◌, ◌+◌, ◌<◌, length};
ghost use Rattle.records.specs.Meaning.Numbers.{u16_at};
ghost use Rattle.guard_table.specs.Model.Parts.{part_of};

use crate::kind::RowKind;
use crate::layout::Layout;
use records::numbers::u16_at;

#[derive(Clone, Copy, Debug, PartialEq, Eq)]
pub enum Part {
    Head,
    Row(RowKind),
    // no guard table has it
    Other,
}

// What the record that begins at an index is. The papers tell a kind by a match on the number, with a range for the rest.
pub fn part_at(t: &[u8], at: usize) -> Part
    requires { at + 3 < length t.now }
    ensures { result ≡ part_of (u16_at t.now (at + 2)) }
{
    match u16_at(t, at + 2) {
        Layout::HEAD_KIND => Part::Head,
        RowKind::NARROW => Part::Row(RowKind::Narrow),
        RowKind::WIDE => Part::Row(RowKind::Wide),
        0..=15 | 18..=19 | 21..=65535 => Part::Other,
    }
}
