// Sheets of two counters, moved by different output lines.
ghost use Rattle.std.specs.Prelude.{◌≡◌, ◌+◌, ◌*◌, ◌≤◌, ◌<◌, length};
ghost use Rattle.std.proofs.lemmas.List.Edits.{sets};
ghost use Rattle.sheet.specs.Meaning.Decoded.{encode};
ghost use Rattle.notebook.specs.Model.Counters.{count_on, counters, head_byte, front_byte, counter_byte, sheet_byte};

// Two counters of at most 32 states: line 0 moves that of n, line 1 that of m.
#[derive(Clone, Copy)]
pub struct TwoCounters {
    pub n: usize,
    pub m: usize,
    pub ghost few: { (n ≤ 32) × (m ≤ 32) },
}

// The state of a counter of n states, in state q, after an output: one further if the line is on. `power` is 2 to the line's
// number.
// One counter's bound is a call's, here and below: `front_byte` asks for no power, so that a struct of both would serve two functions alone.
#[tactic(auto, unfolding(crate::specs::Model::Counters::count_on))]
fn count_on(n: usize, power: usize, q: usize, output: usize) -> usize
    requires { (q < n) × ((n ≤ 32) × (1 ≤ power)) }
    ensures { (result ≡ count_on n power q output) × (result < n) }
{
    if output / power % 2 != 1 {
        return q;
    }
    if q + 1 == n {
        return 0;
    }
    q + 1
}

// Byte k of the head.
#[tactic(auto, unfolding(crate::specs::Model::Counters::head_byte))]
fn head_byte(k: usize) -> u8
    ensures { result ≡ head_byte k }
{
    match k {
        0 => 7,
        2 => 1,
        6 => 2,
        10 => 1,
        _ => 0,
    }
}

// Byte k of a counter's record, before its tables.
#[tactic(auto, unfolding(crate::specs::Model::Counters::front_byte))]
fn front_byte(n: usize, k: usize) -> u8
    requires { n ≤ 32 }
    ensures { result ≡ front_byte n k }
{
    match k {
        0 => (4 + n * 5) as u8,
        2 => 2,
        6 => n as u8,
        _ => 0,
    }
}

// Byte k of a counter's record.
#[tactic(auto, unfolding(crate::specs::Model::Counters::counter_byte))]
fn counter_byte(n: usize, power: usize, k: usize) -> u8
    requires { (n ≤ 32) × ((1 ≤ power) × (k < 8 + n * 5)) }
    ensures { result ≡ counter_byte n power k }
{
    if k < 8 {
        return front_byte(n, k);
    }
    if k < 8 + n {
        return 1;
    }
    let entry = k - (8 + n);
    count_on(n, power, entry / 4, entry % 4) as u8
}

// Byte k of their sheet.
#[tactic(auto, unfolding(crate::specs::Model::Counters::sheet_byte))]
fn sheet_byte(pair: TwoCounters, k: usize) -> u8
    requires { k < 27 + pair.n * 5 + pair.m * 5 }
    ensures { result ≡ sheet_byte pair.n pair.m k }
{
    if k < 11 {
        return head_byte(k);
    }
    if k < 19 + pair.n * 5 {
        return counter_byte(pair.n, 1, k - 11);
    }
    counter_byte(pair.m, 2, k - (19 + pair.n * 5))
}

// Puts their sheet at the start of a slice, and answers its length.
pub fn put_sheet(sheet: &mut [u8], pair: TwoCounters) -> usize
    requires { 347 ≤ length sheet.old }
    ensures { (sheet.new ≡ sets sheet.old 0 (encode (counters pair.n pair.m))) × (result ≡ length (encode (counters pair.n pair.m))) }
{
    let size = 27 + pair.n * 5 + pair.m * 5;
    for k in 0..size {
        sheet[k] = sheet_byte(pair, k);
    }
    size
}
