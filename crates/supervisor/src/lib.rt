// The maximally permissive supervisor of a sheet, as a table.
#![tactic(auto)]

pub mod make;
