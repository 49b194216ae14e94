// The states of a guard, numbered as first met, and the bytes of its table.
#![tactic(auto)]

pub mod states;
pub mod table;
