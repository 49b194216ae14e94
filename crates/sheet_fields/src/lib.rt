// The fields of a sheet's records: when they are in bounds.
#![tactic(auto)]

pub mod body;
pub mod head;
pub mod monitor;
pub mod places;
