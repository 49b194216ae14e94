// The guard table: where its parts stand, how its records are written, its entries, and which slices a board may load.
// What a table's bytes mean is said here, and nowhere else.
#![tactic(auto)]

pub mod entry;
pub mod heads;
pub mod kind;
pub mod layout;
pub mod loadable;
pub mod part;
