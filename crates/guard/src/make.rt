// The maker of guard tables.
ghost use Rattle.std.specs.Prelude.{◌≡◌, [], ◌∷◌, length};
ghost use Rattle.records.specs.Meaning.Numbers.{zeros};
ghost use Rattle.guard.specs.Promises.GuardMaker.{MakesGuard};

use plan::making::make_cleared;
use records::limits::Limits;
use records::work::long_enough;
use sheet::layout::Refusal;
use solve::made::Made;
use states::index::Index;

// The maker: the work memory that it needs.
#[derive(Clone, Copy)]
pub struct Guard {}

impl Guard {
    // The tuple of each product state, as one number.
    pub const TUPLES: usize = Limits::STATES;

    // The table of steps: a cell for each product state and letter.
    pub const CELLS: usize = Limits::LETTERS * Limits::STATES;

    // The index of the tuples while they are numbered; then the round that dropped each product state.
    pub const DROPPED: usize = Index::LINKS;

    // What the soft monitors earn in each product state.
    pub const GAINS: usize = Limits::STATES;

    // What equal lines earn by each letter.
    pub const BONUSES: usize = Limits::LETTERS;

    // What each product state is worth; then the chosen outputs of each guard state, as one number.
    pub const VALUES: usize = Limits::STATES;

    // What arriving in each product state earns and is worth.
    pub const ARRIVALS: usize = Limits::STATES;

    // The product state of each guard state, and for each product state its number in the guard and 1 more.
    pub const ORDER: usize = Limits::STATES;

    pub const NUMBERS: usize = Limits::STATES;

    // Makes the guard table of a sheet. The work memory may hold anything, and is zero afterwards.
    // The slices come one by one, as C's caller lends them.
    // Each maker tests its own constants, so that its proof ties what callers lend by them to what its promise asks for.
    pub fn make(
        sheet: &[u8],
        res: &mut [u8],
        tuples: &mut [u64],
        cells: &mut [u16],
        dropped: &mut [u16],
        gains: &mut [u16],
        bonuses: &mut [u16],
        values: &mut [u64],
        arrivals: &mut [u64],
        order: &mut [u16],
        numbers: &mut [u16],
    ) -> Result<Made, Refusal>
        ensures made { MakesGuard sheet.now res.old
            (length tuples.old ∷ length cells.old ∷ length dropped.old ∷ length gains.old ∷
            length bonuses.old ∷ length values.old ∷ length arrivals.old ∷
            length order.old ∷ length numbers.old ∷ []) result res.new }
        ensures tuples { tuples.new ≡ zeros (length tuples.old) }
        ensures cells { cells.new ≡ zeros (length cells.old) }
        ensures dropped { dropped.new ≡ zeros (length dropped.old) }
        ensures gains { gains.new ≡ zeros (length gains.old) }
        ensures bonuses { bonuses.new ≡ zeros (length bonuses.old) }
        ensures values { values.new ≡ zeros (length values.old) }
        ensures arrivals { arrivals.new ≡ zeros (length arrivals.old) }
        ensures order { order.new ≡ zeros (length order.old) }
        ensures numbers { numbers.new ≡ zeros (length numbers.old) }
    {
        let ok = long_enough(
            &[
                Guard::TUPLES,
                Guard::CELLS,
                Guard::DROPPED,
                Guard::GAINS,
                Guard::BONUSES,
                Guard::VALUES,
                Guard::ARRIVALS,
                Guard::ORDER,
                Guard::NUMBERS,
            ],
            &[
                tuples.len(),
                cells.len(),
                dropped.len(),
                gains.len(),
                bonuses.len(),
                values.len(),
                arrivals.len(),
                order.len(),
                numbers.len(),
            ],
        );
        make_cleared(
            ok, sheet, res, tuples, cells, dropped, gains, bonuses, values, arrivals, order,
            numbers,
        )
    }
}
