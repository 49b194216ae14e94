// The choice of an output: the largest score, and among those the highest in the sheet's output order.
ghost use Rattle.std.specs.Prelude.{◌≡◌, ◌<◌};
ghost use Rattle.values.specs.Model.Arrivals.{ranked_choice};
ghost use Rattle.values.specs.Model.Leaders.{goes_before, challenged};
ghost use Rattle.values.specs.Model.Sizes.{Ready};
ghost use Rattle.values.specs.Model.Tables.{game_in};

use crate::values::RoundGame;
use records::limits::Limits;

// An output with its score and its rank: a candidate, and the one that leads so far, where one does.
#[derive(Clone, Copy)]
pub struct Leader {
    pub output: usize,
    pub score: u64,
    pub rank: usize,
}

// Whether a candidate goes before the leader: a larger score, or the same and a larger rank.
#[tactic(auto, unfolding(crate::specs::Model::Leaders::goes_before))]
pub fn goes_before(score: u64, rank: usize, best: u64, highest: usize) -> bool
    ensures { result ≡ goes_before score rank best highest }
{
    (score, rank) > (best, highest)
}

impl Leader {
    // The leader after this candidate has been compared with the one so far, if there is one.
    #[tactic(auto, unfolding(crate::specs::Model::Leaders::challenged))]
    pub fn against(self, leader: Option<Leader>) -> Leader
        ensures { result ≡ challenged leader self.output self.score self.rank }
    {
        if let Some(best) = leader {
            if !goes_before(self.score, self.rank, best.score, best.rank) {
                return best;
            }
        }
        self
    }
}

impl RoundGame<'_> {
    // The choice of a state at an input: outputs in turn, of those allowed the one that leads; 0 if none is allowed.
    // `ranks` holds the rank of each output.
    // A number and no Option: `ranked_choice` has 0 there. The ranks stand beside the game, since values are worked out without them.
    pub fn choose_output(&self, ranks: [usize; Limits::OUTS], k: usize, i: usize) -> u8
        requires ready { Ready (game_in self.now.game) self.now.arrivals.now self.now.factor k }
        requires input { i < self.now.game.steps.ins }
        ensures { result ≡ ranked_choice (game_in self.now.game) ranks self.now.arrivals.now self.now.factor k i }
    {
        let mut leader: Option<Leader> = None;
        for o in 0..self.game.steps.outs {
            if let Some(score) = self.offer_of(k, i, o) {
                let candidate = Leader {
                    output: o,
                    score,
                    rank: ranks[o],
                };
                leader = Some(candidate.against(leader));
            }
        }
        match leader {
            Some(best) => best.output as u8,
            None => 0,
        }
    }
}
