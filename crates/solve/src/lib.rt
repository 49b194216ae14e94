// Solving a sheet, which every maker begins with.
#![tactic(auto)]

pub mod made;
pub mod opening;
pub mod solving;
