// The forecast card of a sheet: what each product state can still earn, at best and at least.
#![tactic(auto)]

pub mod make;
mod making;
