// A monitor's fields: ground 4.
ghost use Rattle.std.specs.Prelude.{◌≡◌, ◌+◌, ◌≤◌, length};
ghost use Rattle.records.specs.Meaning.Limits.{max_lines, max_letters};
ghost use Rattle.sheet_fields.specs.Meaning.Lines.{letters_read};
ghost use Rattle.sheet_fields.specs.Meaning.Monitor.{role_ok, states_ok, bytes_most};

use crate::places::Fixed;
use records::limits::Limits;
use records::numbers::pow2;

// Whether role and weight are in order: hard with no weight, soft with one, a limit in mode 1 with none.
// The role stays the sheet's byte, with a range for the refused rest: the papers' form.
#[tactic(auto, using(records::specs::Laws::Tests::cases), unfolding(crate::specs::Meaning::Monitor::role_ok))]
pub fn role_ok(mode: u8, role: u8, weight: u8) -> bool
    ensures { result ≡ role_ok mode role weight }
{
    match role {
        0 => weight == 0,
        1 => weight != 0,
        2 => mode == 1 && weight == 0,
        3..=255 => false,
    }
}

// The letters that a monitor reads, by the byte of its role: the papers' form.
pub fn letters_read(role: u8, site: u8, outputs: u8) -> usize
    requires { site + outputs ≤ max_lines }
    ensures { (result ≡ letters_read role site outputs) × (result ≤ max_letters) }
{
    match role {
        2 => 4,
        0 | 1 | 3..=255 => pow2(site + outputs),
    }
}

// Whether states and start are in order, and the body's size is that of as many states and letters.
#[tactic(auto, using(records::specs::Laws::Tests::cases), unfolding(crate::specs::Meaning::Monitor::states_ok))]
pub fn states_ok(states: u8, start: u8, letters: usize, size: usize) -> bool
    requires { letters ≤ max_letters }
    ensures { result ≡ states_ok states start letters size }
{
    let n = states as usize;
    1 <= states
        && states <= Limits::MONITOR_STATES
        && start < states
        && size == Fixed::MONITOR + n + n * letters
}

// Whether each of n bytes is at most `most`.
pub fn bytes_most(s: &[u8], at: usize, n: usize, most: u8) -> bool
    requires { at + n ≤ length s.now }
    ensures { result ≡ bytes_most s.now at n most }
{
    s[at..at + n].iter().all(|b| *b <= most)
}
