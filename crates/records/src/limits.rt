// Document 01's bounds by name, and the tests of lines and horizon that sheets, tables and boards share.
ghost use Rattle.std.specs.Prelude.{◌≡◌};
ghost use Rattle.records.specs.Meaning.Limits.{lines_ok, horizon_ok};

// The largest numbers that a sheet may have: associated constants, as the papers have them.
#[derive(Clone, Copy)]
pub struct Limits {}

impl Limits {
    // Input lines.
    pub const INPUTS: u8 = 4;

    // Output lines.
    pub const OUTPUTS: u8 = 3;

    // Input and output lines together.
    pub const LINES: u8 = 6;

    // So many inputs, outputs and letters they make.
    pub const INS: usize = 1 << Limits::INPUTS;

    pub const OUTS: usize = 1 << Limits::OUTPUTS;

    pub const LETTERS: usize = 1 << Limits::LINES;

    // The horizon; inputs × horizon too.
    pub const HORIZON: u8 = 24;

    // Monitors.
    pub const MONITORS: usize = 6;

    // States of a monitor.
    pub const MONITOR_STATES: u8 = 32;

    // Product states, and so the states of a table.
    pub const STATES: usize = 512;

    // A literal is below this: a line, 8 more if off is preferred.
    pub const LITERAL_END: u8 = 16;
}

// Whether mode, input lines and output lines are in bounds.
// Three bytes and no struct: sheets, tables and boards have them in types of their own, and one more would be made for this call alone.
#[tactic(auto, using(crate::specs::Laws::Tests::cases), unfolding(crate::specs::Meaning::Limits::lines_ok))]
pub fn lines_ok(mode: u8, inputs: u8, outputs: u8) -> bool
    ensures { result ≡ lines_ok mode inputs outputs }
{
    mode <= 1
        && inputs <= Limits::INPUTS
        && 1 <= outputs
        && outputs <= Limits::OUTPUTS
        && inputs + outputs <= Limits::LINES
        && (mode == 0 || outputs <= inputs)
}

// Whether the horizon is in bounds for so many input lines.
#[tactic(auto, using(crate::specs::Laws::Tests::cases), unfolding(crate::specs::Meaning::Limits::horizon_ok))]
pub fn horizon_ok(inputs: u8, horizon: u8) -> bool
    ensures { result ≡ horizon_ok inputs horizon }
{
    horizon <= Limits::HORIZON && (inputs as u16) * (horizon as u16) <= Limits::HORIZON as u16
}
