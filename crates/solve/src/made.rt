// What a maker answers.

// The bytes of the table, and the states that it has.
#[derive(Clone, Copy, Debug, PartialEq, Eq)]
pub struct Made {
    pub length: usize,
    pub states: usize,
}
