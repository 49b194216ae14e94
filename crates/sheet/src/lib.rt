// The sheet: its records read, judged and laid out.
#![tactic(auto)]

pub mod head;
pub mod layout;
pub mod monitor;
pub mod reader;
