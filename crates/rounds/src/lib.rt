// The rounds that drop lost states, over a table of steps, and the masks of allowed outputs.
// `ins` and `outs` are the numbers of inputs and of outputs; `dropped` holds for each state the round, counted
// from 1, that dropped it, and 0 while it is in.
// 0 and no Option: `dropped` is work memory of two-byte numbers, as C lends it.
#![tactic(auto)]

ghost use Rattle.std.specs.Prelude.{◌≡◌, ℕ, ◌<◌, ◌≤◌, length, get_or};
ghost use Rattle.records.specs.Meaning.Limits.{max_states, max_outs};
ghost use Rattle.rounds.specs.Model.TableRounds.{Steps, cell_at, is_in, leads_in, stays, mask_of, Settled};
ghost use Rattle.rounds.specs.Laws.CellPlaces.{InRow, CellEntered, CellLeads};
ghost use Rattle.rounds.specs.Model.InPlace.{at_start, drops, Rounded};

use records::cells::is_broken;

// A table of steps of n states.
// `n` stands beside the slices, here and in what is made of it: they are work memory, which is lent as long as any sheet needs.
#[derive(Clone, Copy)]
pub struct StepTable<'a> {
    pub cells: &'a [u16],
    pub n: usize,
    pub ins: usize,
    pub outs: usize,
    pub ghost steps: { Steps cells.now n ins outs },
}

// A table of steps, and for each of its states the round that dropped it.
// A field for the bounds on the lines would ask them of all; bounds on a state or an input are a call's, not the table's.
#[derive(Clone, Copy)]
pub struct Sifted<'a, 'b> {
    pub table: StepTable<'a>,
    pub dropped: &'b [u16],
    pub ghost room: { table.n ≤ length dropped.now },
}

// Where the cell of a state, an input and an output stands.
#[tactic(auto, unfolding(crate::specs::Model::TableRounds::cell_at))]
pub fn cell_at(ins: usize, outs: usize, k: usize, i: usize, o: usize) -> usize
    requires { InRow ins outs k i o }
    ensures { result ≡ cell_at ins outs k i o }
{
    k * (ins * outs) + (i + ins * o)
}

// Whether no round has dropped a state.
#[tactic(auto, unfolding(crate::specs::Model::TableRounds::is_in))]
pub fn is_kept(dropped: &[u16], k: usize) -> bool
    requires { k < length dropped.now }
    ensures { result ≡ is_in dropped.now k }
{
    dropped[k] == 0
}

// Whether a cell is an unbroken step to a state that was in at the start of a round.
// Slices and no `Sifted`: a round looks at cells while it writes `dropped`, and `CellLeads` asks less than that type.
pub fn cell_leads(cells: &[u16], dropped: &[u16], round: u16, at: usize) -> bool
    requires { CellLeads cells.now dropped.now at }
    ensures { result ≡ leads_in cells.now (at_start round dropped.now) at }
{
    let cell = cells[at];
    if is_broken(cell) {
        return false;
    }
    let dropped_by = dropped[cell as usize];
    if dropped_by == round {
        return true;
    }
    dropped_by == 0
}

// Whether a cell is an unbroken step to a state that is kept.
// Round 0 is none, as in `dropped`; slices as in `cell_leads`.
pub fn leads_to_kept(cells: &[u16], dropped: &[u16], at: usize) -> bool
    requires { CellLeads cells.now dropped.now at }
    ensures { result ≡ leads_in cells.now dropped.now at }
{
    cell_leads(cells, dropped, 0, at)
}

impl StepTable<'_> {
    // Whether every input of a state has an unbroken step to a state that was in at the start of a round. The cells of one input
    // stand `ins` apart in the state's row.
    pub fn state_stays(&self, dropped: &[u16], k: usize, round: u16) -> bool
        requires cell_entered { CellEntered dropped.now self.now.n k }
        ensures { result ≡ stays self.now.cells.now (at_start round dropped.now) self.now.ins self.now.outs k }
    {
        let letters = self.ins * self.outs;
        let base = k * letters;
        let end = base + letters;
        let mut i: usize = 0;
        // The papers' form: the inner search ends both loops by label, and i says how far they came.
        'inputs: while i < self.ins {
            let mut at = base + i;
            'search: loop {
                if end <= at {
                    break 'inputs;
                }
                if cell_leads(self.cells, dropped, round, at) {
                    break 'search;
                }
                at += self.ins;
            }
            i += 1;
        }
        self.ins <= i
    }

    // Whether a round drops a state.
    pub fn round_drops(&self, dropped: &[u16], k: usize, round: u16) -> bool
        requires cell_entered { CellEntered dropped.now self.now.n k }
        ensures { result ≡ drops self.now.cells.now self.now.ins self.now.outs round dropped.now k }
    {
        is_kept(dropped, k) && !self.state_stays(dropped, k, round)
    }

    // One round in place; how many states it dropped.
    pub fn one_round(&self, dropped: &mut [u16], round: u16) -> usize
        requires n_in_bounds { self.now.n ≤ length dropped.old }
        requires before_round { (k : ℕ) → k < self.now.n → get_or dropped.old k 0 < round }
        ensures { Rounded self.now.cells.now self.now.n self.now.ins self.now.outs round dropped.old dropped.new result }
    {
        let mut lost: usize = 0;
        for k in 0..self.n {
            if self.round_drops(dropped, k, round) {
                dropped[k] = round;
                lost += 1;
            }
        }
        lost
    }

    // The rounds, to the first that drops nothing; how many states are kept.
    pub fn settle(&self, dropped: &mut [u16]) -> usize
        requires n_in_bounds { (self.now.n ≤ length dropped.old) × (self.now.n ≤ max_states) }
        ensures { Settled self.now.cells.now self.now.n self.now.ins self.now.outs dropped.old dropped.new result }
    {
        dropped[..self.n].fill(0);
        let mut kept = self.n;
        let mut made: u16 = 0;
        // The papers' form: a loop left by break with the kept count.
        loop {
            let lost = self.one_round(dropped, made + 1);
            if lost == 0 {
                break kept;
            }
            kept -= lost;
            made += 1;
        }
    }
}

impl Sifted<'_, '_> {
    ghost use Rattle.rounds.specs.Model.Tables.{over};

    // The outputs that are allowed in a state at an input, bit o for output o.
    pub fn mask_of(&self, k: usize, i: usize) -> u8
        requires state { k < self.now.table.n }
        requires input { i < self.now.table.ins }
        requires outs_fit { self.now.table.outs ≤ max_outs }
        ensures { result ≡ over self.now mask_of k i }
    {
        let StepTable {
            cells,
            ins,
            outs,
            ..
        } = self.table;
        if !is_kept(self.dropped, k) {
            return 0;
        }
        let mut mask: u8 = 0;
        for o in 0..outs {
            if leads_to_kept(cells, self.dropped, cell_at(ins, outs, k, i, o)) {
                mask += 1u8 << o;
            }
        }
        mask
    }
}
