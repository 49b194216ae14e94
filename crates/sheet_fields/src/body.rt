// The body of a record in its bytes.
ghost use Rattle.std.specs.Prelude.{◌+◌, ◌≤◌, length};

// The `size` bytes from `start`, all of them inside the bytes.
// Places and no cut of the bytes: a monitor keeps where its tables begin in the sheet.
#[derive(Clone, Copy)]
pub struct Body<'a> {
    pub bytes: &'a [u8],
    pub start: usize,
    pub size: usize,
    pub ghost inside: { start + size ≤ length bytes.now },
}
