// Value iteration over a table of steps: what each kept state is worth over a horizon.
// `gains` holds for each state what a step to it earns.
ghost use Rattle.std.specs.Prelude.{◌≡◌, ◌^◌, ◌≤◌, ◌<◌, length, get_or};
ghost use Rattle.records.specs.Meaning.Limits.{max_horizon};
ghost use Rattle.records.specs.Model.Lists.{put};
ghost use Rattle.rounds.specs.Model.TableRounds.{cell_at};
ghost use Rattle.rounds.specs.Laws.CellPlaces.{InRow};
ghost use Rattle.values.specs.Model.Values.{SizedGame, worth, value_row};
ghost use Rattle.values.specs.Model.Sizes.{Valued, Ready, best_of};
ghost use Rattle.values.specs.Model.Arrivals.{arrival, Gained, score_in, Scored, offer_of};
ghost use Rattle.values.specs.Model.Tables.{game_in, game_with};

use rounds::{cell_at, is_kept, leads_to_kept};

// The cells of a table of steps, one for each state, input and output, and the numbers of inputs and of outputs.
// No `StepTable` (crate `rounds`): `next_of`, and what else takes these cells, asks less than its fact.
#[derive(Clone, Copy)]
pub struct StepCells<'a> {
    pub cells: &'a [u16],
    pub ins: usize,
    pub outs: usize,
}

impl StepCells<'_> {
    // The state after a step.
    pub fn next_of(&self, k: usize, i: usize, o: usize) -> usize
        requires in_row { InRow self.now.ins self.now.outs k i o }
        requires cell_in_table { cell_at self.now.ins self.now.outs k i o < length self.now.cells.now }
        ensures { result ≡ get_or self.now.cells.now (cell_at self.now.ins self.now.outs k i o) 0 }
    {
        self.cells[cell_at(self.ins, self.outs, k, i, o)] as usize
    }
}

// What is played on: a table of steps, the round that dropped each state (0 if it is kept), and what each letter adds.
#[derive(Clone, Copy)]
pub struct TableGame<'a> {
    pub steps: StepCells<'a>,
    pub dropped: &'a [u16],
    pub bonuses: &'a [u16],
}

// A game in a round. `arrivals` holds for each state what a step to it earns along every word of inputs that is still to come, and what
// follows: gain and value as one number, made once a round and not once a step. `factor` is the number of these words.
// That a state is one that the values are of (`Ready`), and an input one of the game's, stands in contracts: an index of a type of its own
// would be made in every turn, and a number of states would be asked of all.
#[derive(Clone, Copy)]
pub struct RoundGame<'a> {
    pub game: TableGame<'a>,
    pub arrivals: &'a [u64],
    pub factor: u64,
}

impl RoundGame<'_> {
    // The score of a step to the state `to` by a letter: what it earns along every word to come, and what follows.
    #[tactic(auto, unfolding(crate::specs::Model::Arrivals::score_in))]
    pub fn score_of(&self, to: usize, letter: usize) -> u64
        requires { Scored self.now.game.bonuses.now self.now.arrivals.now self.now.factor to letter }
        ensures { result ≡ score_in self.now.game.bonuses.now self.now.arrivals.now self.now.factor to letter }
    {
        self.arrivals[to] + (self.game.bonuses[letter] as u64) * self.factor
    }

    // What an output offers in a state at an input: the score of its step; none if it is not allowed.
    pub fn offer_of(&self, k: usize, i: usize, o: usize) -> Option<u64>
        requires ready { Ready (game_in self.now.game) self.now.arrivals.now self.now.factor k }
        requires input { i < self.now.game.steps.ins }
        requires output { o < self.now.game.steps.outs }
        ensures { result ≡ offer_of (game_in self.now.game) self.now.arrivals.now self.now.factor k i o }
    {
        let at = cell_at(self.game.steps.ins, self.game.steps.outs, k, i, o);
        if !leads_to_kept(self.game.steps.cells, self.game.dropped, at) {
            return None;
        }
        let to = self.game.steps.cells[at] as usize;
        Some(self.score_of(to, i + self.game.steps.ins * o))
    }

    // The largest score of a state at an input over the outputs that may be given, 0 if none may.
    pub fn best_score(&self, k: usize, i: usize) -> u64
        requires ready { Ready (game_in self.now.game) self.now.arrivals.now self.now.factor k }
        requires input { i < self.now.game.steps.ins }
        ensures { result ≡ best_of (game_in self.now.game) self.now.arrivals.now self.now.factor k i }
    {
        let mut best: u64 = 0;
        for o in 0..self.game.steps.outs {
            if let Some(score) = self.offer_of(k, i, o) {
                best = best.max(score);
            }
        }
        best
    }

    // What a state is worth one step earlier: the sum of its best scores over the inputs, 0 unless it is kept.
    pub fn worth_of(&self, k: usize) -> u64
        requires { Ready (game_in self.now.game) self.now.arrivals.now self.now.factor k }
        ensures { result ≡ worth (game_in self.now.game) self.now.arrivals.now self.now.factor k }
    {
        if !is_kept(self.game.dropped, k) {
            return 0;
        }
        let mut sum: u64 = 0;
        for i in 0..self.game.steps.ins {
            sum += self.best_score(k, i);
        }
        sum
    }
}

// Such a game of n states, with values for all of them.
// `n` stands beside the slices, which are work memory lent as long as any sheet needs.
#[derive(Clone, Copy)]
pub struct ReadyGame<'a> {
    pub round: RoundGame<'a>,
    pub n: usize,
    pub ghost sized: { SizedGame (game_in round.game) n },
    pub ghost valued: { Valued n round.arrivals.now round.factor },
}

impl ReadyGame<'_> {
    // The row for one step more, from the arrivals.
    pub fn value_round(&self, values: &mut [u64])
        requires { self.now.n ≤ length values.old }
        ensures { values.new ≡ put values.old self.now.n
            (worth (game_in self.now.round.game) self.now.round.arrivals.now self.now.round.factor) }
    {
        for k in 0..self.n {
            values[k] = self.round.worth_of(k);
        }
    }
}

impl TableGame<'_> {
    // The values over a horizon, in `values`, and from these the arrivals for the choice; what it answers is the number of words of
    // so many inputs.
    pub fn value_rows(
        &self,
        gains: &[u16],
        n: usize,
        values: &mut [u64],
        arrivals: &mut [u64],
        horizon: u8,
    ) -> u64
        requires sized_game { SizedGame (game_with self.now gains.now) n }
        requires gains_room { n ≤ length gains.now }
        requires rows_room { (n ≤ length values.old) × (n ≤ length arrivals.old) }
        requires horizon_in_bounds { (horizon ≤ max_horizon) × (self.now.steps.ins ^ horizon ≤ 2 ^ max_horizon) }
        ensures row { values.new ≡ value_row (game_with self.now gains.now) n values.old horizon }
        ensures words { result ≡ self.now.steps.ins ^ horizon }
        ensures arrivals { arrivals.new ≡ put arrivals.old n (arrival gains.now values.new (self.now.steps.ins ^ horizon)) }
    {
        values[..n].fill(0);
        let mut factor: u64 = 1;
        for _ in 0..horizon {
            prepare(gains, values, arrivals, n, factor);
            let round = RoundGame {
                game: *self,
                arrivals,
                factor,
            };
            let ready = ReadyGame { round, n };
            ready.value_round(values);
            factor *= self.steps.ins as u64;
        }
        prepare(gains, values, arrivals, n, factor);
        factor
    }
}

// The arrivals of the first `n` states, from what they gain and what they are worth.
// `arrivals` and `factor` apart: no `ReadyGame` has them before this has filled them.
pub fn prepare(gains: &[u16], values: &[u64], arrivals: &mut [u64], n: usize, factor: u64)
    requires gained { Gained n gains.now }
    requires valued { Valued n values.now factor }
    requires arrivals_room { n ≤ length arrivals.old }
    ensures { arrivals.new ≡ put arrivals.old n (arrival gains.now values.now factor) }
{
    for k in 0..n {
        arrivals[k] = (gains[k] as u64) * factor + values[k];
    }
}
