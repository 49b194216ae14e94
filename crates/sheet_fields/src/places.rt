// Where the parts of a record's body stand.

// The fixed parts of bodies: associated constants, as the papers have them.
#[derive(Clone, Copy)]
pub struct Fixed {}

impl Fixed {
    // A head's numbers, before its literals.
    pub const HEAD: usize = 5;

    // A monitor's numbers, before its accept bytes.
    pub const MONITOR: usize = 4;
}
