// Value iteration, the output order and the choice, over a table of steps.
#![tactic(auto)]

pub mod choice;
pub mod order;
pub mod values;
