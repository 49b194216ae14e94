// The scores of the outputs that may be given at an input: the largest and the smallest.
ghost use Rattle.std.specs.Prelude.{◌≡◌, ◌<◌};
ghost use Rattle.values.specs.Model.Values.{SizedGame};
ghost use Rattle.values.specs.Model.Sizes.{Valued, Ready};
ghost use Rattle.values.specs.Model.Tables.{game_in};
ghost use Rattle.outlook.specs.Model.Spans.{widened, span_of};

use values::values::{RoundGame, TableGame};

// The largest and the smallest score of some outputs, of which there is one at least.
#[derive(Clone, Copy)]
pub struct Span {
    pub best: u64,
    pub least: u64,
}

impl Span {
    // One output's scores, with those of the outputs tried before it, if there were any.
    #[tactic(auto, unfolding(crate::specs::Model::Spans::widened))]
    pub fn with(self, tried: Option<Span>) -> Span
        ensures { result ≡ widened tried self.best self.least }
    {
        match tried {
            Some(span) => Span {
                best: span.best.max(self.best),
                least: span.least.min(self.least),
            },
            None => self,
        }
    }
}

// A game in a round, for both sums: `highs` holds for each state what a step to it earns and what follows at best, `lows` at least. Both
// have the same rounds, so that a cell is read once for the two: the project's form.
#[derive(Clone, Copy)]
pub struct RoundBoth<'a> {
    pub game: TableGame<'a>,
    pub highs: &'a [u64],
    pub lows: &'a [u64],
    pub factor: u64,
}

impl RoundBoth<'_> {
    // The span of a state at an input; none if no output may be given.
    pub fn span_at(&self, k: usize, i: usize) -> Option<Span>
        requires high { Ready (game_in self.now.game) self.now.highs.now self.now.factor k }
        requires low { Ready (game_in self.now.game) self.now.lows.now self.now.factor k }
        requires input { i < self.now.game.steps.ins }
        ensures { result ≡ span_of (game_in self.now.game) self.now.highs.now self.now.lows.now self.now.factor k i }
    {
        let high = RoundGame {
            game: self.game,
            arrivals: self.highs,
            factor: self.factor,
        };
        let low = RoundGame {
            game: self.game,
            arrivals: self.lows,
            factor: self.factor,
        };
        let mut span: Option<Span> = None;
        for o in 0..self.game.steps.outs {
            if let Some(best) = high.offer_of(k, i, o) {
                let to = self.game.steps.next_of(k, i, o);
                let least = low.score_of(to, i + self.game.steps.ins * o);
                let scores = Span { best, least };
                span = Some(scores.with(span));
            }
        }
        span
    }
}

// Such a game of n states, with values of both kinds for all of them.
// `n` stands beside the slices, which are lent as long as any sheet needs.
#[derive(Clone, Copy)]
pub struct ReadyBoth<'a> {
    pub rounds: RoundBoth<'a>,
    pub n: usize,
    pub ghost sized: { SizedGame (game_in rounds.game) n },
    pub ghost high: { Valued n rounds.highs.now rounds.factor },
    pub ghost low: { Valued n rounds.lows.now rounds.factor },
}
