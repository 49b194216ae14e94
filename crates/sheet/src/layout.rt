// What a reader knows of a sheet: its numbers, and where the monitors lie in its bytes.
ghost use Rattle.std.specs.Prelude.{◌≡◌, ◌+◌, ◌<◌, ◌≤◌};
ghost use Rattle.records.specs.Meaning.Limits.{max_lines, max_monitors};
ghost use Rattle.sheet.specs.Model.Layout.{no_monitor, with_monitor};
ghost use Rattle.sheet.specs.Meaning.Grounds.{ground_number};
ghost use Rattle.sheet.specs.Laws.Grounds.{number_positive};
ghost use Rattle.sheet.specs.declared.layout.Refusal.TheVariants as refusal;
ghost use Rattle.sheet.specs.Model.Where.{Fits, width};

use records::cursor::Truncated;
use records::limits::Limits;
use records::numbered::Numbered;
use sheet_fields::monitor::letters_read;

// One monitor: its numbers, and where its accept bytes and its rows of next states begin. The role stays the sheet's byte, which
// is told by a match with a range for the refused rest: the papers' form.
#[derive(Clone, Copy)]
pub struct Monitor {
    pub role: u8,
    pub weight: u8,
    pub states: u8,
    pub start: u8,
    pub accept: usize,
    pub rows: usize,
}

// A sheet. `site` lines come from the site, `inputs` is the guard's number of input lines, `matching` is the match
// weight. The first `outputs` literals and the first `count` monitors are the sheet's: arrays with a length, since memory is fixed and
// there is no heap. The mode stays the sheet's byte, as roles and kinds do in the papers' form: tables' heads take it as it was read, and
// promises hold of a layout of any mode. That the lines are few enough stands in contracts, here and in the other modules: as a fact of
// this type it would be asked of all layouts.
#[derive(Clone, Copy)]
pub struct Sheet {
    pub mode: u8,
    pub site: u8,
    pub inputs: u8,
    pub outputs: u8,
    pub horizon: u8,
    pub matching: u8,
    pub literals: [u8; Limits::OUTPUTS as usize],
    pub monitors: [Monitor; Limits::MONITORS],
    pub count: usize,
}

// A sheet that was read, and the bytes in which its monitors lie.
#[derive(Clone, Copy)]
pub struct ReadSheet<'a> {
    pub bytes: &'a [u8],
    pub layout: Sheet,
    ghost fits: { Fits bytes.now layout },
}

// The grounds on which a maker refuses, with document 01's numbers.
#[derive(Clone, Copy, Debug, PartialEq, Eq)]
pub enum Refusal {
    Truncated = 1,
    Misplaced = 2,
    BadHead = 3,
    BadMonitor = 4,
    SeventhMonitor = 5,
    LongHorizon = 6,
    TooManyStates = 7,
    Unrealizable = 8,
    ShortResult = 9,
    ShortWork = 10,
}

impl Numbered for Refusal {
    ghost number_of = { ground_number };

    ghost refuses = { number_positive };

    fn number(self) -> u8 {
        self as u8
    }
}

impl From<Truncated> for Refusal {
    ghost from_gives = { λ _ cause. cause ≡ refusal.Truncated };

    fn from(_cut: Truncated) -> Refusal {
        Refusal::Truncated
    }
}

impl Monitor {
    #[tactic(auto, unfolding(crate::specs::Model::Layout::no_monitor))]
    pub fn none() -> Monitor
        ensures { result ≡ no_monitor }
    {
        Monitor {
            role: 0,
            weight: 0,
            states: 0,
            start: 0,
            accept: 0,
            rows: 0,
        }
    }
}

impl Sheet {
    // The letters that one of its monitors reads.
    pub fn width(self, m: Monitor) -> usize
        requires { self.site + self.outputs ≤ max_lines }
        ensures { result ≡ width self m }
    {
        letters_read(m.role, self.site, self.outputs)
    }

    // The sheet with one more monitor.
    #[tactic(auto, unfolding(crate::specs::Model::Layout::with_monitor))]
    pub fn with_monitor(self, m: Monitor) -> Sheet
        requires { self.count < max_monitors }
        ensures { result ≡ with_monitor self m }
    {
        let at = self.count;
        let mut next = self;
        next.monitors[at] = m;
        next.count = at + 1;
        next
    }
}
