// The maker of forecast cards.
ghost use Rattle.std.specs.Prelude.{◌≡◌, [], ◌∷◌, length};
ghost use Rattle.records.specs.Meaning.Numbers.{zeros};
ghost use Rattle.forecast.specs.Promises.Forecast.{MakesForecast};

use crate::making::{ForecastWork, make_with};
use card::Card;
use records::limits::Limits;
use records::work::long_enough;
use sheet::layout::Refusal;
use states::index::Index;

// The maker: the work memory that it needs.
#[derive(Clone, Copy)]
pub struct Forecast {}

impl Forecast {
    // The tuple of each product state, as one number.
    pub const TUPLES: usize = Limits::STATES;

    // The table of steps: a cell for each product state and letter.
    pub const CELLS: usize = Limits::LETTERS * Limits::STATES;

    // The index of the tuples while they are numbered; then the round that dropped each product state.
    pub const DROPPED: usize = Index::LINKS;

    // What the soft monitors earn in each product state.
    pub const GAINS: usize = Limits::STATES;

    // What equal lines earn by each letter.
    pub const BONUSES: usize = Limits::LETTERS;

    // What ways of answering earn from each product state, at best and at least.
    pub const BESTS: usize = Limits::STATES;

    pub const LEASTS: usize = Limits::STATES;

    // What arriving in each product state earns and is worth, at best and at least.
    pub const HIGHS: usize = Limits::STATES;

    pub const LOWS: usize = Limits::STATES;

    // Makes the forecast card of a sheet. The work memory may hold anything, and is zero afterwards.
    // The slices come one by one, as C's caller lends them.
    // Each maker tests its own constants, so that its proof ties what callers lend by them to what its promise asks for.
    pub fn make(
        sheet: &[u8],
        tuples: &mut [u64],
        cells: &mut [u16],
        dropped: &mut [u16],
        gains: &mut [u16],
        bonuses: &mut [u16],
        bests: &mut [u64],
        leasts: &mut [u64],
        highs: &mut [u64],
        lows: &mut [u64],
    ) -> Result<Card, Refusal>
        ensures made { MakesForecast sheet.now
            (length tuples.old ∷ length cells.old ∷ length dropped.old ∷ length gains.old ∷
            length bonuses.old ∷ length bests.old ∷ length leasts.old ∷
            length highs.old ∷ length lows.old ∷ []) result }
        ensures tuples { tuples.new ≡ zeros (length tuples.old) }
        ensures cells { cells.new ≡ zeros (length cells.old) }
        ensures dropped { dropped.new ≡ zeros (length dropped.old) }
        ensures gains { gains.new ≡ zeros (length gains.old) }
        ensures bonuses { bonuses.new ≡ zeros (length bonuses.old) }
        ensures bests { bests.new ≡ zeros (length bests.old) }
        ensures leasts { leasts.new ≡ zeros (length leasts.old) }
        ensures highs { highs.new ≡ zeros (length highs.old) }
        ensures lows { lows.new ≡ zeros (length lows.old) }
    {
        let ok = long_enough(
            &[
                Forecast::TUPLES,
                Forecast::CELLS,
                Forecast::DROPPED,
                Forecast::GAINS,
                Forecast::BONUSES,
                Forecast::BESTS,
                Forecast::LEASTS,
                Forecast::HIGHS,
                Forecast::LOWS,
            ],
            &[
                tuples.len(),
                cells.len(),
                dropped.len(),
                gains.len(),
                bonuses.len(),
                bests.len(),
                leasts.len(),
                highs.len(),
                lows.len(),
            ],
        );
        let work = ForecastWork {
            gains,
            bonuses,
            bests,
            leasts,
            highs,
            lows,
        };
        let made = make_with(ok, sheet, tuples, cells, dropped, work);
        tuples.fill(0);
        cells.fill(0);
        dropped.fill(0);
        gains.fill(0);
        bonuses.fill(0);
        bests.fill(0);
        leasts.fill(0);
        highs.fill(0);
        lows.fill(0);
        made
    }
}
