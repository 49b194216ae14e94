// A head's fields: grounds 3 and 6.
ghost use Rattle.std.specs.Prelude.{◌≡◌, ◌+◌, ◌<◌, ◌≤◌, length};
ghost use Rattle.records.specs.Meaning.Limits.{max_inputs, max_outputs};
ghost use Rattle.sheet_fields.specs.Meaning.Places.{literals_from};
ghost use Rattle.sheet_fields.specs.Meaning.Lines.{guard_lines};
ghost use Rattle.sheet_fields.specs.Meaning.Head.{site_ok, fresh_line, literal_ok, literals_ok, numbers_ok, head_ok};
ghost use Rattle.sheet_fields.specs.Model.Head.{literal_at};

use crate::body::Body;
use crate::places::Fixed;
use records::limits::{Limits, lines_ok};

// The guard's input lines: in mode 1 the proposal's lines come on top of the site's.
// Bytes one by one, here and below: no test has passed yet that a struct of them could stand for. The mode is one of them, and an enum
// could not hold a refused one.
#[tactic(auto, using(records::specs::Laws::Tests::cases), unfolding(crate::specs::Meaning::Lines::guard_lines))]
pub fn guard_lines(mode: u8, site: u8, outputs: u8) -> u8
    requires { (site ≤ max_inputs) × (outputs ≤ max_outputs) }
    ensures { result ≡ guard_lines mode site outputs }
{
    if mode == 1 { site + outputs } else { site }
}

// Whether mode, site lines and output lines are in bounds.
#[tactic(auto, using(records::specs::Laws::Tests::cases), unfolding(crate::specs::Meaning::Head::site_ok))]
pub fn site_ok(mode: u8, site: u8, outputs: u8) -> bool
    ensures { result ≡ site_ok mode site outputs }
{
    site <= Limits::INPUTS
        && outputs <= Limits::OUTPUTS
        && lines_ok(mode, guard_lines(mode, site, outputs), outputs)
}

// Whether no literal before the one at j names its line.
pub fn fresh_line(s: &[u8], at: usize, j: usize) -> bool
    requires { (j ≤ max_outputs) × (at + j < length s.now) }
    ensures { result ≡ fresh_line s.now at j }
{
    let line = s[at + j] % 8;
    s[at..at + j].iter().all(|literal| *literal % 8 != line)
}

// Whether the literal at j names a line of the outputs that no earlier one names.
#[tactic(auto, using(records::specs::Laws::Tests::cases), unfolding(crate::specs::Meaning::Head::literal_ok))]
pub fn literal_ok(s: &[u8], at: usize, outputs: u8, j: usize) -> bool
    requires { (j ≤ max_outputs) × (at + j < length s.now) }
    ensures { result ≡ literal_ok s.now at outputs j }
{
    let literal = s[at + j];
    literal < Limits::LITERAL_END && literal % 8 < outputs && fresh_line(s, at, j)
}

// Whether the literals name each output line once.
pub fn literals_ok(s: &[u8], at: usize, outputs: u8) -> bool
    requires { (outputs ≤ max_outputs) × (at + outputs ≤ length s.now) }
    ensures { result ≡ literals_ok s.now at outputs }
{
    for j in 0..outputs as usize {
        if !literal_ok(s, at, outputs, j) {
            return false;
        }
    }
    true
}

// Whether the fields, horizon and literals aside, and the body's size are in order.
#[tactic(auto, using(records::specs::Laws::Tests::cases), unfolding(crate::specs::Meaning::Head::numbers_ok))]
pub fn numbers_ok(mode: u8, site: u8, outputs: u8, matching: u8, size: usize) -> bool
    ensures { result ≡ numbers_ok mode site outputs matching size }
{
    site_ok(mode, site, outputs)
        && size == Fixed::HEAD + (outputs as usize)
        && (mode == 1 || matching == 0)
}

// Whether the body's size and fields, the horizon aside, are in order.
#[tactic(auto, using(records::specs::Laws::Tests::cases), unfolding(crate::specs::Meaning::Head::head_ok))]
pub fn head_ok(body: &Body) -> bool
    ensures { result ≡ head_ok body.now.bytes.now body.now.start body.now.size }
{
    let s = body.bytes;
    let start = body.start;
    let size = body.size;
    Fixed::HEAD <= size
        && numbers_ok(s[start], s[start + 1], s[start + 2], s[start + 4], size)
        && literals_ok(s, start + Fixed::HEAD, s[start + 2])
}

// Literal j, 0 past the outputs.
#[tactic(auto, using(records::specs::Laws::Tests::cases), unfolding(crate::specs::Model::Head::literal_at))]
pub fn literal_at(s: &[u8], start: usize, outputs: u8, j: u8) -> u8
    requires { (outputs ≤ max_outputs) × (literals_from start + outputs ≤ length s.now) }
    ensures { result ≡ literal_at s.now start outputs j }
{
    if j < outputs {
        s[start + Fixed::HEAD + (j as usize)]
    } else {
        0
    }
}
