// The two kinds of rows, which differ in how an entry's next state is written, and the kind that a table shows.
ghost use Rattle.std.specs.Prelude.{◌≡◌, ◌≤◌, eqb, true, false, length, MatchOption};
ghost use Rattle.guard_table.specs.Meaning.GuardTable.{shown_length, shows_kind, kind_of};
ghost use Rattle.guard_table.specs.Meaning.RowKind.{kind_number, states_most, kind_for, entry_width};

use crate::layout::Layout;
use crate::part::{Part, part_at};
use records::limits::Limits;

// A kind is the number in a row's header.
#[derive(Clone, Copy, Debug, PartialEq, Eq)]
pub enum RowKind {
    // the next state is one byte
    Narrow = 17,
    // it is two
    Wide = 20,
}

impl RowKind {
    // The numbers, as a `match` takes them.
    pub const NARROW: u16 = RowKind::Narrow as u16;

    pub const WIDE: u16 = RowKind::Wide as u16;

    // A narrow row can name so many states.
    pub const NARROW_STATES: usize = 256;

    // The kind of the rows of a guard with so many states.
    #[tactic(auto, using(records::specs::Laws::Tests::cases), unfolding(crate::specs::Meaning::RowKind::kind_for))]
    pub fn of(count: usize) -> RowKind
        ensures { result ≡ kind_for count }
    {
        if count <= RowKind::NARROW_STATES {
            return RowKind::Narrow;
        }
        RowKind::Wide
    }

    // The number in a row's header.
    pub fn number(self) -> u16
        ensures { result ≡ kind_number self }
    {
        self as u16
    }

    // Whether another kind is this one. An arm for each two kinds, and no `==`, so that each can be held to its answer.
    pub fn same(self, other: RowKind) -> bool
        ensures { result ≡ eqb (kind_number self) (kind_number other) }
    {
        match self {
            RowKind::Narrow => match other {
                RowKind::Narrow => true,
                RowKind::Wide => false,
            },
            RowKind::Wide => match other {
                RowKind::Narrow => false,
                RowKind::Wide => true,
            },
        }
    }

    // How many states a table with such rows may have.
    pub fn states(self) -> usize
        ensures { result ≡ states_most self }
    {
        match self {
            RowKind::Narrow => RowKind::NARROW_STATES,
            RowKind::Wide => Limits::STATES,
        }
    }

    // The bytes of an entry.
    pub fn width(self) -> usize
        ensures { result ≡ entry_width self }
    {
        match self {
            RowKind::Narrow => 2,
            RowKind::Wide => Layout::WIDTH,
        }
    }
}

// The kind of a slice's first row, if the slice is long enough to show it, and it is one of the two.
pub fn shown_kind(table: &[u8]) -> Option<RowKind>
    ensures { MatchOption result (shows_kind table.now ≡ false) (λ kind. (shows_kind table.now ≡ true) × (kind ≡ kind_of table.now)) }
{
    if table.len() < Layout::SHOWN {
        return None;
    }
    match part_at(table, Layout::HEAD_LENGTH) {
        Part::Row(kind) => Some(kind),
        Part::Head | Part::Other => None,
    }
}

// The kind by which the rows of a slice are read: the one that is shown, else the narrow one.
pub fn kind_of(table: &[u8]) -> RowKind
    requires { shown_length ≤ length table.now }
    ensures { result ≡ kind_of table.now }
{
    shown_kind(table).unwrap_or(RowKind::Narrow)
}
