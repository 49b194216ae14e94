// The answer that shows how a break is forced: a row of bytes for each product state, over a table of steps and the rounds over it.
// The round that dropped a state is the least number of steps in which the inputs force a break from it; 0 says that it is kept.
#![tactic(auto)]

ghost use Rattle.std.specs.Prelude.{◌≡◌, ℕ, ◌+◌, ◌≤◌, ◌<◌, length};
ghost use Rattle.std.proofs.lemmas.List.Edits.{sets};
ghost use Rattle.records.specs.Meaning.Limits.{max_ins, max_outs, max_states};
ghost use Rattle.records.specs.Meaning.Lists.{tab, cat};
ghost use Rattle.rounds.specs.Model.Tables.{over};
ghost use Rattle.rounds.specs.Model.TableRounds.{leads_in};
ghost use Rattle.rounds.specs.Laws.CellPlaces.{CellLeads};
ghost use Rattle.forced_rows.specs.Meaning.ForcedBytes.{forced_length};
ghost use Rattle.forced_rows.specs.Model.ForcedRows.{before_round, forces_at, forcing_input, breaker_in, breaker_at, forced_row};

use records::cells::{broken_monitor, is_broken};
use records::numbers::put_u16;
use rounds::{Sifted, StepTable, cell_at, is_kept};

// The monitor that breaks a step, as a byte of the answer.
#[derive(Clone, Copy)]
pub struct Breaker {}

impl Breaker {
    // Where none is named.
    pub const NONE: u8 = 255;
}

// The bytes of an answer for so many output values and states.
#[tactic(auto, unfolding(crate::specs::Meaning::ForcedBytes::forced_length))]
pub fn answer_length(outs: usize, count: usize) -> usize
    requires { (outs ≤ max_outs) × (count ≤ max_states) }
    ensures { result ≡ forced_length outs count }
{
    count * (3 + outs)
}

// Whether a cell is an unbroken step to a state that was in before a round: kept, or dropped in that round or later.
// Slices and no `Sifted`: `CellLeads` asks less than that type.
pub fn escapes(cells: &[u16], dropped: &[u16], round: u16, at: usize) -> bool
    requires { CellLeads cells.now dropped.now at }
    ensures { result ≡ leads_in cells.now (before_round round dropped.now) at }
{
    let cell = cells[at];
    if is_broken(cell) {
        return false;
    }
    let dropped_by = dropped[cell as usize];
    if dropped_by == 0 {
        return true;
    }
    round <= dropped_by
}

// Whether no answer to an input of a state escapes the round that dropped the state.
pub fn input_forces(sifted: &Sifted, k: usize, i: usize) -> bool
    requires state { k < sifted.now.table.n }
    requires input { i < sifted.now.table.ins }
    ensures { result ≡ over sifted.now forces_at k i }
{
    let StepTable {
        cells,
        ins,
        outs,
        ..
    } = sifted.table;
    let round = sifted.dropped[k];
    for o in 0..outs {
        if escapes(cells, sifted.dropped, round, cell_at(ins, outs, k, i, o)) {
            return false;
        }
    }
    true
}

// The lowest input that forces a break as soon as any does; 0 for a kept state.
// A number and no Option: it is the answer's byte, and `forcing_input` has a number for every state.
pub fn forcing_input(sifted: &Sifted, k: usize) -> u8
    requires state { k < sifted.now.table.n }
    requires ins_fit { sifted.now.table.ins ≤ max_ins }
    ensures { result ≡ over sifted.now forcing_input k }
{
    if is_kept(sifted.dropped, k) {
        return 0;
    }
    let ins = sifted.table.ins;
    for i in 0..ins {
        if input_forces(sifted, k, i) {
            return i as u8;
        }
    }
    ins as u8
}

// The monitor that breaks the step of a cell; 255 for an unbroken step, as the C interface's answer has it.
#[tactic(auto, unfolding(crate::specs::Model::ForcedRows::breaker_in))]
pub fn breaker_in(cell: u16) -> u8
    ensures { result ≡ breaker_in cell }
{
    if !is_broken(cell) {
        return Breaker::NONE;
    }
    broken_monitor(cell)
}

// The monitor that output o breaks at input i of state k, if the state is one step from its end; else 255.
#[tactic(auto, unfolding(crate::specs::Model::ForcedRows::breaker_at))]
pub fn breaker_at(sifted: &Sifted, k: usize, i: usize, o: usize) -> u8
    requires state { k < sifted.now.table.n }
    requires input { i < sifted.now.table.ins }
    requires output { o < sifted.now.table.outs }
    ensures { result ≡ over sifted.now breaker_at k i o }
{
    if sifted.dropped[k] != 1 {
        return Breaker::NONE;
    }
    let StepTable {
        cells,
        ins,
        outs,
        ..
    } = sifted.table;
    breaker_in(cells[cell_at(ins, outs, k, i, o)])
}

// The monitors of state k at input i, a byte for each output value.
// An index and no cut of the slice, here and in `put_row`: the promise says of the whole slice that all else stays.
pub fn put_breakers(res: &mut [u8], at: usize, sifted: &Sifted, k: usize, i: usize)
    requires state { k < sifted.now.table.n }
    requires input { i < sifted.now.table.ins }
    requires room { at + sifted.now.table.outs ≤ length res.old }
    ensures { res.new ≡ sets res.old at (tab sifted.now.table.outs
        (over sifted.now breaker_at k i)) }
{
    for o in 0..sifted.table.outs {
        res[at + o] = breaker_at(sifted, k, i, o);
    }
}

// The bytes of state k.
pub fn put_row(res: &mut [u8], at: usize, sifted: &Sifted, k: usize)
    requires state { k < sifted.now.table.n }
    requires ins_fit { sifted.now.table.ins ≤ max_ins }
    requires input_found { over sifted.now forcing_input k < sifted.now.table.ins }
    requires room { at + (3 + sifted.now.table.outs) ≤ length res.old }
    ensures { res.new ≡ sets res.old at (over sifted.now forced_row k) }
{
    let input = forcing_input(sifted, k);
    put_u16(res, at, sifted.dropped[k]);
    res[at + 2] = input;
    put_breakers(res, at + 3, sifted, k, input as usize);
}

// The rows of all states, from the start of the result.
pub fn put_rows(res: &mut [u8], sifted: &Sifted)
    requires ins_fit { sifted.now.table.ins ≤ max_ins }
    requires outs_fit { sifted.now.table.outs ≤ max_outs }
    requires inputs_found { (k : ℕ) → k < sifted.now.table.n →
        over sifted.now forcing_input k < sifted.now.table.ins }
    requires room { forced_length sifted.now.table.outs sifted.now.table.n ≤ length res.old }
    ensures { res.new ≡ sets res.old 0 (cat sifted.now.table.n
        (over sifted.now forced_row)) }
{
    let width = 3 + sifted.table.outs;
    for k in 0..sifted.table.n {
        put_row(res, k * width, sifted, k);
    }
}
