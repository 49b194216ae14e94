// What each state can still earn over a horizon, at best and at least: both sums of all states in the same rounds.
#![tactic(auto)]

pub mod horizon;
pub mod span;
pub mod sums;
