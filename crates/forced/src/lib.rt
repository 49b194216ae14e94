// How a break is forced: the play that beats a sheet which cannot be realized.
#![tactic(auto)]

pub mod answer;
pub mod make;
