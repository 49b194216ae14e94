// The sums of all states over a horizon, a round a step.
ghost use Rattle.std.specs.Prelude.{◌≡◌, ◌^◌, ◌≤◌, length};
ghost use Rattle.records.specs.Meaning.Limits.{max_horizon};
ghost use Rattle.records.specs.Model.Bounded.{top};
ghost use Rattle.records.specs.Model.Lists.{put};
ghost use Rattle.game.specs.Model.Extreme.{bottom};
ghost use Rattle.values.specs.Model.Values.{SizedGame};
ghost use Rattle.values.specs.Model.Tables.{game_with};
ghost use Rattle.outlook.specs.Model.Outlook.{table_value};

use crate::span::{ReadyBoth, RoundBoth};
use values::values::{TableGame, prepare};

// The sums of the first `n` states over a horizon, in `bests` and `leasts`; what it answers is the number of words of so many inputs.
// Nothing is promised of `highs` and `lows`, which it works in.
// The slices are parameters, one for each row as C lends them: a struct would have to promise of each that it is still the caller's.
pub fn foresee(
    game: &TableGame,
    gains: &[u16],
    n: usize,
    bests: &mut [u64],
    leasts: &mut [u64],
    highs: &mut [u64],
    lows: &mut [u64],
    horizon: u8,
) -> u64
    requires sized_game { SizedGame (game_with game.now gains.now) n }
    requires gains_room { n ≤ length gains.now }
    requires rows_room { (n ≤ length bests.old) × (n ≤ length leasts.old) }
    requires spares_room { (n ≤ length highs.old) × (n ≤ length lows.old) }
    requires horizon_in_bounds { (horizon ≤ max_horizon) × (game.now.steps.ins ^ horizon ≤ 2 ^ max_horizon) }
    ensures best { bests.new ≡ put bests.old n (table_value top (game_with game.now gains.now) horizon) }
    ensures least { leasts.new ≡ put leasts.old n (table_value bottom (game_with game.now gains.now) horizon) }
    ensures words { result ≡ game.now.steps.ins ^ horizon }
{
    bests[..n].fill(0);
    leasts[..n].fill(0);
    let mut factor: u64 = 1;
    for _ in 0..horizon {
        prepare(gains, bests, highs, n, factor);
        prepare(gains, leasts, lows, n, factor);
        let rounds = RoundBoth {
            game: *game,
            highs,
            lows,
            factor,
        };
        let ready = ReadyBoth { rounds, n };
        ready.sums_round(bests, leasts);
        factor *= game.steps.ins as u64;
    }
    factor
}
