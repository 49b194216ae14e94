// What every format and table above shares: numbers, records, bounds, and the cells of a table of steps.
#![tactic(auto)]

pub mod cells;
pub mod cursor;
pub mod limits;
pub mod numbered;
pub mod numbers;
pub mod work;
