// Counters of 32 and 8, 9 and 16 states moved by different output lines pass; 32 and 17 are refused 7 (document 01's notebook, with
// document 02's N6).
#![tactic(auto)]

mod counters;
mod makers;

use counters::TwoCounters;
use makers::{counters_guard, counters_supervisor};
use records::numbered::Numbered;
use sheet::layout::Refusal;
use solve::made::Made;
use std::io;

// The answer of a maker: the states of its table, or the number of the refusal.
fn print_made(rt: &impl Print, made: Result<Made, Refusal>) -> io::Result<()> {
    match made {
        Ok(table) => println!(rt; "{} states", table.states),
        Err(cause) => println!(rt; "refused {}", cause.number()),
    }
}

// What begins a line: the two counters.
fn print_counters(rt: &impl Print, pair: TwoCounters) -> io::Result<()> {
    print!(rt; "{} and {}", pair.n, pair.m)
}

// A line for each maker.
fn report(rt: &impl Print, pair: TwoCounters) -> io::Result<()> {
    print_counters(rt, pair)?;
    print!(rt; ", supervisor: ")?;
    print_made(rt, counters_supervisor(pair))?;
    print_counters(rt, pair)?;
    print!(rt; ", guard: ")?;
    print_made(rt, counters_guard(pair))
}

fn main(rt: HostRuntime) -> io::Result<()> {
    report(&rt, TwoCounters { n: 32, m: 8 })?;
    report(&rt, TwoCounters { n: 32, m: 9 })?;
    report(&rt, TwoCounters { n: 32, m: 16 })?;
    report(&rt, TwoCounters { n: 32, m: 17 })
}
