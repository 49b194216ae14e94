// The sums of a state one step earlier: over the inputs, of its largest and of its smallest scores.
ghost use Rattle.std.specs.Prelude.{◌≡◌, ◌≤◌, length};
ghost use Rattle.records.specs.Model.Bounded.{top};
ghost use Rattle.records.specs.Model.Lists.{put};
ghost use Rattle.game.specs.Model.Extreme.{bottom};
ghost use Rattle.values.specs.Model.Sizes.{Ready};
ghost use Rattle.values.specs.Model.Tables.{game_in};
ghost use Rattle.outlook.specs.Model.Outlook.{worth_by};
ghost use Rattle.outlook.specs.Model.Spans.{sums_of};

use crate::span::{ReadyBoth, RoundBoth};
use rounds::is_kept;

// What ways of answering earn from a state, added over all words of inputs: at best and at least.
// No `Span`: that is of the outputs at one input, and one type would let it stand for a sum.
#[derive(Clone, Copy)]
pub struct Sums {
    pub best: u64,
    pub least: u64,
}

impl RoundBoth<'_> {
    // The sums of a state; 0 unless it is kept.
    pub fn sums_of(&self, k: usize) -> Sums
        requires high { Ready (game_in self.now.game) self.now.highs.now self.now.factor k }
        requires low { Ready (game_in self.now.game) self.now.lows.now self.now.factor k }
        ensures { result ≡ sums_of (game_in self.now.game) self.now.highs.now self.now.lows.now self.now.factor k }
    {
        let mut best: u64 = 0;
        let mut least: u64 = 0;
        if !is_kept(self.game.dropped, k) {
            return Sums { best, least };
        }
        for i in 0..self.game.steps.ins {
            if let Some(span) = self.span_at(k, i) {
                best += span.best;
                least += span.least;
            }
        }
        Sums { best, least }
    }
}

impl ReadyBoth<'_> {
    // The rows of sums for one step more.
    pub fn sums_round(&self, bests: &mut [u64], leasts: &mut [u64])
        requires { (self.now.n ≤ length bests.old) × (self.now.n ≤ length leasts.old) }
        ensures best { bests.new ≡ put bests.old self.now.n
            (worth_by top (game_in self.now.rounds.game) self.now.rounds.highs.now self.now.rounds.factor) }
        ensures least { leasts.new ≡ put leasts.old self.now.n
            (worth_by bottom (game_in self.now.rounds.game) self.now.rounds.lows.now self.now.rounds.factor) }
    {
        for k in 0..self.n {
            let sums = self.rounds.sums_of(k);
            bests[k] = sums.best;
            leasts[k] = sums.least;
        }
    }
}
