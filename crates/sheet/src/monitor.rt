// A monitor's record: grounds 5 and 4.
ghost use Rattle.std.specs.Prelude.{◌≡◌, ◌+◌, ◌<◌, ◌≤◌, length};
ghost use Rattle.records.specs.Meaning.Limits.{max_lines};
ghost use Rattle.sheet_fields.specs.Meaning.Places.{accept_from};
ghost use Rattle.sheet_fields.specs.Meaning.Monitor.{monitor_ok};
ghost use Rattle.sheet.specs.Model.MonitorRecord.{monitor_at, take_monitor};

use crate::layout::{Monitor, Refusal, Sheet};
use records::limits::Limits;
use sheet_fields::body::Body;
use sheet_fields::monitor::{bytes_most, letters_read, role_ok, states_ok};
use sheet_fields::places::Fixed;

// Whether a monitor's body is in order; its tables are looked at only where its numbers are.
#[tactic(auto, using(records::specs::Laws::Tests::cases), unfolding(sheet_fields::specs::Meaning::Monitor::monitor_ok))]
pub fn monitor_ok(body: &Body, sheet: Sheet) -> bool
    requires { sheet.site + sheet.outputs ≤ max_lines }
    ensures { result ≡ monitor_ok body.now.bytes.now sheet.mode sheet.site sheet.outputs body.now.start body.now.size }
{
    if body.size < Fixed::MONITOR {
        return false;
    }
    let s = body.bytes;
    let start = body.start;
    let letters = letters_read(s[start], sheet.site, sheet.outputs);
    let states = s[start + 2];
    let n = states as usize;
    role_ok(sheet.mode, s[start], s[start + 1])
        && states_ok(states, s[start + 3], letters, body.size)
        && bytes_most(s, start + Fixed::MONITOR, n, 1)
        && bytes_most(s, start + Fixed::MONITOR + n, n * letters, states - 1)
}

// The monitor of a body.
#[tactic(auto, unfolding(crate::specs::Model::MonitorRecord::monitor_at))]
pub fn monitor_at(body: &Body) -> Monitor
    requires { accept_from body.now.start ≤ length body.now.bytes.now }
    ensures { result ≡ monitor_at body.now.bytes.now body.now.start }
{
    let s = body.bytes;
    let start = body.start;
    let states = s[start + 2];
    Monitor {
        role: s[start],
        weight: s[start + 1],
        states,
        start: s[start + 3],
        accept: start + Fixed::MONITOR,
        rows: start + Fixed::MONITOR + (states as usize),
    }
}

// A monitor's record, refused 5 before 4.
#[tactic(auto, using(records::specs::Laws::Tests::cases), unfolding(crate::specs::Model::MonitorRecord::take_monitor))]
pub fn take_monitor(body: &Body, sheet: Sheet) -> Result<Sheet, Refusal>
    requires { sheet.site + sheet.outputs ≤ max_lines }
    ensures { result ≡ take_monitor body.now.bytes.now sheet body.now.start body.now.size }
{
    if Limits::MONITORS <= sheet.count {
        return Err(Refusal::SeventhMonitor);
    }
    if !monitor_ok(body, sheet) {
        return Err(Refusal::BadMonitor);
    }
    Ok(sheet.with_monitor(monitor_at(body)))
}
