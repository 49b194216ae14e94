// The listing of a guard table, and what is said where there is none, as text.
#![tactic(auto)]

ghost use Rattle.std.specs.Prelude.{◌≡◌, true};
ghost use Rattle.guard_table.specs.Meaning.Loadable.{loadable};
ghost use Rattle.listing_text.specs.Meaning.Listing.{listing_of, refused_text, too_long_text};
ghost use Rattle.report.specs.Promises.Report.{refusal_number, listed_length, outcome_due, outcome_text, Writes};
ghost use Rattle.report.specs.Laws.Numbers.{list_refuses};

use guard_table::loadable::is_loadable;
use listing_text::lengths::{listing_length, number_length};
use listing_text::put_listing;
use listing_text::writer::Writer;
use records::limits::Limits;
use records::numbered::Numbered;
use sheet::layout::Refusal;
use solve::made::Made;

// Why a writer wrote no text, by document 01's numbers.
#[derive(Clone, Copy, Debug, PartialEq, Eq)]
pub enum ListRefusal {
    NoTable = 11,
    ShortText = 9,
}

impl Numbered for ListRefusal {
    ghost number_of = { refusal_number };

    ghost refuses = { list_refuses };

    fn number(self) -> u8 {
        self as u8
    }
}

// The writers of text, which answer the bytes of their text. Each knows that length before it writes any.
#[derive(Clone, Copy)]
pub struct Report {}

impl Report {
    // The longest first line of a listing, and the longest line of a state.
    pub const HEAD_LINE: usize = 41;

    pub const ROW_LINE: usize = 101;

    // No text is longer.
    pub const TEXT: usize = Report::HEAD_LINE + Report::ROW_LINE * Limits::STATES;

    // The bytes of the text that a writer answered, 0 where it wrote none. An arm for each ground, so that each can be held to 0.
    pub fn length(listed: Result<usize, ListRefusal>) -> usize
        ensures { result ≡ listed_length listed }
    {
        match listed {
            Ok(size) => size,
            Err(ListRefusal::NoTable) => 0,
            Err(ListRefusal::ShortText) => 0,
        }
    }

    // The listing of a table, at the start of the text memory.
    pub fn list(table: &[u8], text: &mut [u8]) -> Result<usize, ListRefusal>
        ensures { Writes (loadable table.now) (listing_of table.now) text.old result text.new }
    {
        if !is_loadable(table) {
            return Err(ListRefusal::NoTable);
        }
        if text.len() < listing_length(table) {
            return Err(ListRefusal::ShortText);
        }
        Ok(put_listing(text, table))
    }

    // The line of a refusal.
    pub fn refused(number: u8, text: &mut [u8]) -> Result<usize, ListRefusal>
        ensures { Writes true (refused_text number) text.old result text.new }
    {
        if text.len() < 9 + number_length(number as usize) {
            return Err(ListRefusal::ShortText);
        }
        let mut writer = Writer::new(text);
        writer.put_labelled(b"refused ", number as usize);
        writer.put_byte(b'\n');
        Ok(writer.at)
    }

    // The line of a sheet that is too long to be read.
    #[tactic(auto, unfolding(crate::specs::Promises::Report::text_number))]
    pub fn too_long(text: &mut [u8]) -> Result<usize, ListRefusal>
        ensures { Writes true too_long_text text.old result text.new }
    {
        let line = b"too long\n";
        if text.len() < line.len() {
            return Err(ListRefusal::ShortText);
        }
        let mut writer = Writer::new(text);
        writer.put_word(line);
        Ok(writer.at)
    }

    // What a maker answered, whose table, if it made one, is at the start of `result`.
    pub fn outcome(
        made: Result<Made, Refusal>,
        res: &[u8],
        text: &mut [u8],
    ) -> Result<usize, ListRefusal>
        ensures { Writes (outcome_due made res.now) (outcome_text made res.now) text.old result
            text.new }
    {
        match made {
            Ok(table) => {
                if res.len() < table.length {
                    return Err(ListRefusal::NoTable);
                }
                Report::list(&res[..table.length], text)
            }
            Err(cause) => Report::refused(cause.number(), text),
        }
    }
}
