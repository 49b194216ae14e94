// The pieces of a listing, each put behind the one before it.
#![tactic(auto)]

pub mod lengths;
pub mod table;
pub mod writer;

ghost use Rattle.std.specs.Prelude.{◌≡◌, ◌^◌, ◌≤◌, ◌<◌, length};
ghost use Rattle.records.specs.Meaning.Limits.{max_states};
ghost use Rattle.records.specs.Meaning.Lists.{cat};
ghost use Rattle.guard_table.specs.Meaning.GuardTable.{head_length, head_inputs, head_count};
ghost use Rattle.guard_table.specs.Model.Inside.{Closed};
ghost use Rattle.listing_text.specs.Meaning.Listing.{labelled, head_line, entry_text, entry_of, row_of, listing_of};
ghost use Rattle.listing_text.specs.Model.Put.{Put};
ghost use Rattle.listing_text.specs.Model.Puts.{Fits, Puts};

use crate::table::ClosedTable;
use crate::writer::Writer;
use guard_table::entry::{Entry, entry_in};
use guard_table::layout::Layout;
use records::numbers::pow2;

impl Writer<'_> {
    // A word, and a number after it.
    pub fn put_labelled(&mut self, word: &[u8], n: usize)
        requires { (n < 1000) × Fits self.old (labelled word.now n) }
        ensures { Puts self.old (labelled word.now n) self.new }
    {
        self.put_word(word);
        self.put_number(n);
    }

    // The first line.
    pub fn put_head(&mut self, count: usize, inputs: u8, outputs: u8, horizon: u8)
        requires { (count < 1000) × Fits self.old (head_line count inputs outputs horizon) }
        ensures { Puts self.old (head_line count inputs outputs horizon) self.new }
    {
        self.put_labelled(b"states ", count);
        self.put_labelled(b" inputs ", inputs as usize);
        self.put_labelled(b" outputs ", outputs as usize);
        self.put_labelled(b" horizon ", horizon as usize);
        self.put_byte(b'\n');
    }

    // An entry, ' output>next'.
    pub fn put_entry(&mut self, entry: Entry)
        requires { (Fits self.old (entry_text entry.output entry.next)) × (entry.next < max_states) }
        ensures { Puts self.old (entry_text entry.output entry.next) self.new }
    {
        self.put_byte(b' ');
        self.put_number(entry.output as usize);
        self.put_byte(b'>');
        self.put_number(entry.next as usize);
    }
}

impl ClosedTable<'_> {
    // The entries of a state, one for each input.
    pub fn put_entries(&self, writer: &mut Writer<'_>, k: usize)
        requires k_low { k < self.now.count }
        requires room { Fits writer.old (cat (2 ^ self.now.inputs) (entry_of self.now.bytes.now self.now.inputs k)) }
        ensures { Puts writer.old (cat (2 ^ self.now.inputs) (entry_of self.now.bytes.now self.now.inputs k)) writer.new }
    {
        for i in 0..pow2(self.inputs) {
            writer.put_entry(entry_in(self.bytes, self.inputs, k, i));
        }
    }

    // The line of a state.
    pub fn put_row(&self, writer: &mut Writer<'_>, k: usize)
        requires k_low { k < self.now.count }
        requires room { Fits writer.old (row_of self.now.bytes.now self.now.inputs k) }
        ensures { Puts writer.old (row_of self.now.bytes.now self.now.inputs k) writer.new }
    {
        writer.put_number(k);
        writer.put_byte(b':');
        self.put_entries(writer, k);
        writer.put_byte(b'\n');
    }

    // The lines of the states.
    pub fn put_rows(&self, writer: &mut Writer<'_>)
        requires room { Fits writer.old (cat self.now.count (row_of self.now.bytes.now self.now.inputs)) }
        ensures { Puts writer.old (cat self.now.count (row_of self.now.bytes.now self.now.inputs)) writer.new }
    {
        for k in 0..self.count {
            self.put_row(writer, k);
        }
    }
}

// The listing of a table, at the start of the text.
pub fn put_listing(text: &mut [u8], table: &[u8]) -> usize
    requires head_length_in_bounds { (head_length ≤ length table.now) × Closed table.now (head_inputs table.now) (head_count table.now) }
    requires table_in_bounds { length (listing_of table.now) ≤ length text.old }
    ensures { Put text.old 0 (listing_of table.now) result text.new }
{
    let closed = ClosedTable::of(table);
    let mut writer = Writer::new(text);
    writer.put_head(
        closed.count,
        closed.inputs,
        table[Layout::OUTPUTS],
        table[Layout::HORIZON],
    );
    closed.put_rows(&mut writer);
    writer.at
}
