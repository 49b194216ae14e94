// The maker of forecast cards, but for the work memory, which is left as it falls.
ghost use Rattle.std.specs.Prelude.{◌≡◌, true};
ghost use Rattle.sheet.specs.Model.Meant.{meant};
ghost use Rattle.plan.specs.Model.Planned.{Playable};
ghost use Rattle.forecast.specs.Model.Forecast.{forecast_card, ForecastRoom};
ghost use Rattle.forecast.specs.Model.Forecasting.{AnswersForecast};

use card::Card;
use outlook::horizon::foresee;
use plan::gains::{fill_bonuses, fill_gains};
use records::numbers::pow2;
use sheet::layout::{ReadSheet, Refusal};
use solve::opening::open_sheet;
use values::values::{StepCells, TableGame};

// The work memory beside what solving leaves.
#[derive(Drop)]
pub struct ForecastWork<'a> {
    pub gains: &'a mut [u16],
    pub bonuses: &'a mut [u16],
    pub bests: &'a mut [u64],
    pub leasts: &'a mut [u64],
    pub highs: &'a mut [u64],
    pub lows: &'a mut [u64],
}

// The card of a solved sheet whose start is kept: what steps earn, the sums over the horizon, and their averages.
// What solving left comes slice by slice, as it does in `solve`.
pub fn foretell(
    sheet: &ReadSheet,
    n: usize,
    tuples: &[u64],
    cells: &[u16],
    dropped: &[u16],
    work: ForecastWork,
) -> Card
    requires playable { Playable (meant sheet.now) n tuples.now cells.now dropped.now }
    requires forecast_room { ForecastRoom tuples.now cells.now dropped.now work.gains.now work.bonuses.now work.bests.now work.leasts.now
        work.highs.now work.lows.now }
    ensures { result ≡ forecast_card (meant sheet.now) }
{
    let ForecastWork {
        gains,
        bonuses,
        bests,
        leasts,
        highs,
        lows,
    } = work;
    let layout = sheet.layout;
    let steps = StepCells {
        cells,
        ins: pow2(layout.inputs),
        outs: pow2(layout.outputs),
    };
    fill_gains(sheet, tuples, gains, n);
    fill_bonuses(layout, bonuses, steps.ins, steps.outs);
    let game = TableGame {
        steps,
        dropped,
        bonuses,
    };
    let words = foresee(&game, gains, n, bests, leasts, highs, lows, layout.horizon);
    Card::of(dropped, bests, leasts, words, n)
}

// The opening, then the card. `ok` says that the work memory is long enough.
// `ok` and the slices go on to the opening as they came: it refuses 10 for all makers.
// Its goals are proved under any name, so that an edit of the refusal's way is refused for what it says.
#[tactic(auto, using(crate::proofs::Answered::answers_refused, crate::proofs::Answered::answers_made))]
pub fn make_with(
    ok: bool,
    s: &[u8],
    tuples: &mut [u64],
    cells: &mut [u16],
    dropped: &mut [u16],
    work: ForecastWork,
) -> Result<Card, Refusal>
    requires { ok ≡ true → ForecastRoom tuples.old cells.old dropped.old work.gains.now work.bonuses.now work.bests.now work.leasts.now
        work.highs.now work.lows.now }
    ensures { AnswersForecast ok s.now result }
{
    let opened = open_sheet(ok, s, tuples, cells, dropped)?;
    let layout = opened.sheet;
    let sheet = ReadSheet { bytes: s, layout };
    let states = opened.states;
    Ok(foretell(&sheet, states, tuples, cells, dropped, work))
}
