// What a step earns: soft monitors by the state after it, a shield by the lines in which output and proposal are equal.
ghost use Rattle.std.specs.Prelude.{◌≡◌, List, ℕ, ◌≤◌, ◌<◌};
ghost use Rattle.records.specs.Meaning.Limits.{max_inputs, max_outputs};
ghost use Rattle.sheet.specs.Model.Where.{decoded};
ghost use Rattle.sheet.specs.Model.Meant.{meant};
ghost use Rattle.product.specs.Meaning.Step.{equal_lines, soft_reward, weight_of};
ghost use Rattle.product.specs.Model.Range.{InRange};
ghost use Rattle.product.specs.Model.Stages.{soft_term, same_line, match_reward};

use crate::automaton::{accepts_in, monitor_of};
use crate::letters::proposal_of;
use crate::tuple::Product;
use records::numbers::pow2;
use sheet::layout::{ReadSheet, Sheet};

// What monitor j earns in a tuple: its weight if it is soft and accepts.
// A role is told by its byte, with a range for the rest: the papers' form.
fn soft_weight(sheet: &ReadSheet, t: [u8; Product::PLACES], j: usize) -> u64
    requires in_range { InRange (meant sheet.now) t }
    requires j_lt_count { j < sheet.now.layout.count }
    ensures { (result ≡ soft_term (meant sheet.now) t j) × (result ≤ 255) }
{
    let m = monitor_of(sheet.layout, j);
    match m.role {
        1 => {
            if accepts_in(sheet, j, t[j]) {
                u64::from(m.weight)
            } else {
                0
            }
        }
        0 | 2 | 3..=255 => 0,
    }
}

// What the soft monitors that accept in a tuple earn.
pub fn soft_reward(sheet: &ReadSheet, t: [u8; Product::PLACES]) -> u64
    requires in_range { InRange (meant sheet.now) t }
    ensures { result ≡ soft_reward (weight_of (meant sheet.now)) (meant sheet.now) t }
{
    let mut total: u64 = 0;
    for j in 0..sheet.layout.count {
        total += soft_weight(sheet, t, j);
    }
    total
}

// Whether two numbers agree in line j.
#[tactic(auto, unfolding(crate::specs::Model::Stages::same_line, crate::specs::Meaning::Step::line))]
fn same_line(a: usize, b: usize, j: u8) -> bool
    requires { j ≤ 8 }
    ensures { result ≡ same_line a b j }
{
    let bit = pow2(j);
    a / bit % 2 == b / bit % 2
}

// In how many lines output and proposal are equal.
pub fn equal_lines(sheet: Sheet, input: usize, output: usize) -> u64
    requires { (sheet.site ≤ max_inputs) × (sheet.outputs ≤ max_outputs) }
    ensures { (s : List ℕ) → result ≡ equal_lines (decoded s sheet) input output }
{
    let proposed = proposal_of(sheet, input);
    let mut n: u64 = 0;
    for j in 0..sheet.outputs {
        if same_line(output, proposed, j) {
            n += 1;
        }
    }
    n
}

// What a shield earns for the lines in which output and proposal are equal.
// The mode stays the sheet's byte, and the promise holds of a layout of any mode.
pub fn match_reward(sheet: Sheet, input: usize, output: usize) -> u64
    requires { (sheet.site ≤ max_inputs) × (sheet.outputs ≤ max_outputs) }
    ensures { (s : List ℕ) → result ≡ match_reward (decoded s sheet) input output }
{
    if sheet.mode != 1 {
        return 0;
    }
    (sheet.matching as u64) * equal_lines(sheet, input, output)
}
