// One step of a tuple: what a step of the monitors means, in code.
#![tactic(auto)]

pub mod automaton;
pub mod letters;
pub mod monitors;
pub mod recovery;
pub mod rewards;
pub mod shadows;
pub mod step;
pub mod tuple;
