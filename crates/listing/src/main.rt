// Reads a sheet on standard input, and prints the listing of its guard, or why there is none.
#![tactic(auto)]

ghost use Rattle.std.specs.Prelude.{◌≡◌, ◌↔◌, ◌≤◌, ◌<◌, [], length, take, IfOk, IfSome, IsTrue, OnOk};
ghost use Rattle.std.specs.Io.KnownBytes.{Consumes, IsAtEnd};
ghost use Rattle.listing.specs.Promises.Printed.{PrintsRead, PrintsGuard, AppendsSheet};

use guard::make::Guard;
use guard_table::layout::Layout;
use report::Report;
use std::io::{self, Read, Write};

// The bytes of a sheet that is not too long, and one more, up to which it is read.
#[derive(Clone, Copy)]
pub struct Listing {}

impl Listing {
    pub const SHEET: usize = 16_384;

    pub const READ: usize = Listing::SHEET + 1;
}

fn main(rt: HostRuntime) -> io::Result<()> {
    print_input(&mut rt.stdin(), &mut rt.stdout())
}

// Reads a sheet and writes what is due for it. Where a read fails, nothing is written.
fn print_input<R: Read, W: Write>(input: &mut R, output: &mut W) -> io::Result<()>
    ensures { OnOk result (IfSome (R.remaining input.old)
        (λ sheet. AppendsSheet sheet (W.contents output.old) (W.contents output.new))) }
{
    let mut memory = [0u8; Listing::READ];
    let mut text = [0u8; Report::TEXT];
    let size = read_full(input, &mut memory)?;
    let ended = is_at_end(input)?;
    let length = print(&memory, size, ended, &mut text);
    output.write_all(&text[..length])
}

// Reads until the memory is full or the input ends, and answers how many bytes it put at the start of the memory.
fn read_full<R: Read>(input: &mut R, memory: &mut [u8]) -> io::Result<usize>
    ensures inside { IfOk result (λ size. size ≤ length memory.new) }
    ensures bytes { IfOk result (λ size. Consumes (R.remaining input.old) (R.remaining input.new) (take size memory.new)) }
    ensures end { IfOk result (λ size. size < length memory.new → IsAtEnd (R.remaining input.new)) }
{
    // No `for`: each read answers how far it got.
    let mut size = 0;
    while size < memory.len() {
        let read = input.read(&mut memory[size..])?;
        if read == 0 {
            break;
        }
        size += read;
    }
    Ok(size)
}

// Whether the input ends here, by one read more, of one byte: it gives none at the end alone.
fn is_at_end<R: Read>(input: &mut R) -> io::Result<bool>
    ensures { IfOk result (λ ended. IfSome (R.remaining input.old) (λ rest. IsTrue ended ↔ (rest ≡ []))) }
{
    let mut next = [0u8; 1];
    let read = input.read(&mut next)?;
    Ok(read == 0)
}

// What is printed for what was read, `size` bytes at the start of the memory; `ended` says that the end was seen behind them. Answers the
// text's length: 0, and nothing is printed, where the end was not seen and they are no more than a sheet's.
// Size and flag, and no slice that was ended or not: a size past the sheet's says too long whether the end was seen or not.
#[tactic(auto, unfolding(crate::specs::Promises::Printed::read_text, crate::specs::Promises::Printed::printed, report::specs::Promises::Report::text_number))]
fn print(
    memory: &[u8; Listing::READ],
    size: usize,
    ended: bool,
    text: &mut [u8; Report::TEXT],
) -> usize
    ensures { PrintsRead memory.now size ended text.old result text.new }
{
    if Listing::SHEET < size {
        return Report::length(Report::too_long(text));
    }
    let read = &memory[..];
    if !ended {
        return 0;
    }
    print_guard(&read[..size], text)
}

// The listing of a sheet's guard, or the line of its refusal. The result memory holds the longest table.
fn print_guard(sheet: &[u8], text: &mut [u8; Report::TEXT]) -> usize
    ensures { PrintsGuard sheet.now text.old result text.new }
{
    let mut result = [0u8; Layout::MOST];
    let mut tuples = [0u64; Guard::TUPLES];
    let mut cells = [0u16; Guard::CELLS];
    let mut dropped = [0u16; Guard::DROPPED];
    let mut gains = [0u16; Guard::GAINS];
    let mut bonuses = [0u16; Guard::BONUSES];
    let mut values = [0u64; Guard::VALUES];
    let mut arrivals = [0u64; Guard::ARRIVALS];
    let mut order = [0u16; Guard::ORDER];
    let mut numbers = [0u16; Guard::NUMBERS];
    let made = Guard::make(
        sheet,
        &mut result,
        &mut tuples,
        &mut cells,
        &mut dropped,
        &mut gains,
        &mut bonuses,
        &mut values,
        &mut arrivals,
        &mut order,
        &mut numbers,
    );
    Report::length(Report::outcome(made, &result, text))
}
