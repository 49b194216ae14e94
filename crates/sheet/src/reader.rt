// The reader: records in turn, each judged whole before the next one's length is looked at.
ghost use Rattle.std.specs.Prelude.{◌≡◌, ◌+◌, suc, ◌≤◌, length};
ghost use Rattle.records.specs.Meaning.Limits.{max_lines};
ghost use Rattle.sheet.specs.Model.Reader.{take_record, read_records, reading};
ghost use Rattle.sheet.specs.Promises.Reader.{Reads};

use crate::head::read_head;
use crate::layout::{Refusal, Sheet};
use crate::monitor::take_monitor;
use records::cursor::Cursor;
use sheet_fields::body::Body;

// A record after the head, told by the number of its kind with a range for the refused rest: the papers' form.
#[tactic(auto, using(records::specs::Laws::Tests::cases), unfolding(crate::specs::Model::Reader::take_record))]
pub fn take_record(body: &Body, sheet: Sheet, kind: u16) -> Result<Sheet, Refusal>
    requires { sheet.site + sheet.outputs ≤ max_lines }
    ensures { result ≡ take_record body.now.bytes.now sheet (record { kind = kind; start = body.now.start; size = body.now.size }) }
{
    match kind {
        2 => take_monitor(body, sheet),
        0 | 1 | 3..=65535 => Err(Refusal::Misplaced),
    }
}

// The records after the head.
pub fn read_records(s: &[u8], head: Sheet, from: Cursor) -> Result<Sheet, Refusal>
    requires { head.site + head.outputs ≤ max_lines }
    ensures { result ≡ read_records (suc (length s.now)) s.now head from.at }
{
    let mut sheet = head;
    let mut cursor = from;
    while let Some(found) = cursor.read(s)? {
        let body = Body {
            bytes: s,
            start: found.start,
            size: found.size,
        };
        sheet = take_record(&body, sheet, found.kind)?;
    }
    Ok(sheet)
}

// A sheet is read, or refused by one of grounds 1 to 6.
pub fn read(s: &[u8]) -> Result<Sheet, Refusal>
    ensures { Reads s.now result }
{
    read_in_turn(s)
}

// The head, then the records after it. The first record's kind is told as take_record tells it, with a range for the
// refused rest: the papers' form.
pub fn read_in_turn(s: &[u8]) -> Result<Sheet, Refusal>
    ensures { result ≡ reading s.now }
{
    let mut cursor = Cursor::first();
    let Some(record) = cursor.read(s)? else {
        return Err(Refusal::Misplaced);
    };
    match record.kind {
        1 => {
            let body = Body {
                bytes: s,
                start: record.start,
                size: record.size,
            };
            let head = read_head(&body)?;
            read_records(s, head, cursor)
        }
        0 | 2..=65535 => Err(Refusal::Misplaced),
    }
}
