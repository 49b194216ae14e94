// Records in a slice of bytes: found one at a time, and their headers written.
ghost use Rattle.std.specs.Prelude.{◌≡◌, ◌+◌, ◌<◌, length};
ghost use Rattle.std.proofs.lemmas.List.Edits.{sets};
ghost use Rattle.records.specs.Promises.Cursor.{Finds};
ghost use Rattle.records.specs.Meaning.Records.{header};

use crate::numbers::{put_u16, u16_at};

#[derive(Clone, Copy)]
pub struct Cursor {
    pub at: usize,
}

// A whole record: its body is the `size` bytes from `start`.
#[derive(Clone, Copy)]
pub struct Record {
    pub kind: u16,
    pub start: usize,
    pub size: usize,
}

// Fewer bytes than a header, or a body that runs past the end.
#[derive(Clone, Copy, Debug, PartialEq, Eq)]
pub struct Truncated;

impl Cursor {
    pub fn first() -> Cursor
        ensures { result.at ≡ 0 }
    {
        Cursor { at: 0 }
    }

    // The record at the cursor, which goes past it; nothing at the end of the bytes.
    pub fn read(&mut self, s: &[u8]) -> Result<Option<Record>, Truncated>
        ensures { Finds s.now self.old.at self.new.at result }
    {
        let at = self.at;
        if s.len() <= at {
            return Ok(None);
        }
        if s.len() - at < 4 {
            return Err(Truncated);
        }
        let size = u16_at(s, at) as usize;
        let start = at + 4;
        if s.len() - start < size {
            return Err(Truncated);
        }
        self.at = start + size;
        Ok(Some(Record {
            kind: u16_at(s, at + 2),
            start,
            size,
        }))
    }
}

// Writes a record's header.
// An index and no cut of the slice: the promise says of the whole slice that all else stays.
pub fn put_header(out: &mut [u8], at: usize, size: u16, kind: u16)
    requires { at + 3 < length out.old }
    ensures { out.new ≡ sets out.old at (header size kind) }
{
    put_u16(out, at, size);
    put_u16(out, at + 2, kind);
}
