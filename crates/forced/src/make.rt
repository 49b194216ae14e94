// The maker of plays: for each product state, in how many steps the inputs force a break, by which input, and which monitors break.
ghost use Rattle.std.specs.Prelude.{◌≡◌, true, [], ◌∷◌, ◌≤◌, length};
ghost use Rattle.records.specs.Meaning.Numbers.{zeros};
ghost use Rattle.product.specs.Model.ProductNumbering.{tuples_length, cells_length};
ghost use Rattle.states.specs.Model.Index.{links_length};
ghost use Rattle.forced.specs.Model.ForcedOfSheet.{Plays};
ghost use Rattle.forced.specs.Promises.ForcedMaker.{MakesForced};

use crate::answer::Ground;
use forced_rows::{answer_length, put_rows};
use records::limits::Limits;
use records::numbers::pow2;
use records::work::long_enough;
use rounds::{Sifted, StepTable};
use sheet::layout::Refusal;
use solve::made::Made;
use solve::opening::solve_sheet;
use states::index::Index;

// The maker: the work memory that it needs.
#[derive(Clone, Copy)]
pub struct Forcing {}

impl Forcing {
    // The tuple of each product state, as one number.
    pub const TUPLES: usize = Limits::STATES;

    // The table of steps: a cell for each product state and letter.
    pub const CELLS: usize = Limits::LETTERS * Limits::STATES;

    // The index of the tuples while they are numbered; then the round that dropped each product state.
    pub const DROPPED: usize = Index::LINKS;

    // Shows how a break is forced. The work memory may hold anything, and is zero afterwards.
    // The slices come one by one, as C's caller lends them.
    // Each maker tests its own constants, so that its proof ties what callers lend by them to what its promise asks for.
    pub fn make(
        sheet: &[u8],
        res: &mut [u8],
        tuples: &mut [u64],
        cells: &mut [u16],
        dropped: &mut [u16],
    ) -> Result<Made, Ground>
        ensures made { MakesForced sheet.now res.old
            (length tuples.old ∷ length cells.old ∷ length dropped.old ∷ []) result res.new }
        ensures tuples { tuples.new ≡ zeros (length tuples.old) }
        ensures cells { cells.new ≡ zeros (length cells.old) }
        ensures dropped { dropped.new ≡ zeros (length dropped.old) }
    {
        let ok = long_enough(
            &[Forcing::TUPLES, Forcing::CELLS, Forcing::DROPPED],
            &[tuples.len(), cells.len(), dropped.len()],
        );
        let made = make_with(ok, sheet, res, tuples, cells, dropped);
        tuples.fill(0);
        cells.fill(0);
        dropped.fill(0);
        made
    }
}

// The solving's refusals, then 23 and 9, and the result is written only then. The work memory is left as it falls; `ok` says that it is
// long enough.
// `ok` and the slices go on to the opening as they came: it refuses 10 for all makers.
fn make_with(
    ok: bool,
    s: &[u8],
    res: &mut [u8],
    tuples: &mut [u64],
    cells: &mut [u16],
    dropped: &mut [u16],
) -> Result<Made, Ground>
    requires { ok ≡ true → (tuples_length ≤ length tuples.old) × ((cells_length ≤ length cells.old) × (links_length ≤ length dropped.old)) }
    ensures { Plays ok s.now res.old result res.new }
{
    let solved = solve_sheet(ok, s, tuples, cells, dropped)?;
    if solved.start {
        return Err(Ground::Realizable);
    }
    let sheet = solved.sheet;
    let states = solved.states;
    let outs = pow2(sheet.outputs);
    let length = answer_length(outs, states);
    if res.len() < length {
        return Err(Ground::Sheet(Refusal::ShortResult));
    }
    let table = StepTable {
        cells,
        n: states,
        ins: pow2(sheet.inputs),
        outs,
    };
    put_rows(res, &Sifted { table, dropped });
    Ok(Made { length, states })
}
