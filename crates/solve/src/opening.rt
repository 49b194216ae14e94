// The opening of every call that solves a sheet: 10, the sheet's own refusals and 7; and of those that ask for a realizable one: 8.
ghost use Rattle.std.specs.Prelude.{◌≡◌, true, ◌≤◌, length, IfOk};
ghost use Rattle.product.specs.Model.ProductNumbering.{tuples_length, cells_length};
ghost use Rattle.states.specs.Model.Index.{links_length};
ghost use Rattle.solve.specs.Model.SolvingSheet.{SolvesSheet, SolvingAnswer};
ghost use Rattle.solve.specs.Model.Opening.{Opens, OpenAnswer};

use crate::solving::{Solved, solve};
use sheet::layout::{ReadSheet, Refusal};
use sheet::reader::read;

// 10, the sheet's refusals, and 7. `ok` says that the work memory is long enough: 10 comes before all that is said of a sheet, so it is
// refused here, once for all makers. The slices come one by one, as C's caller lends them to each maker.
pub fn solve_sheet(
    ok: bool,
    s: &[u8],
    tuples: &mut [u64],
    cells: &mut [u16],
    dropped: &mut [u16],
) -> Result<Solved, Refusal>
    requires { ok ≡ true → (tuples_length ≤ length tuples.old) × ((cells_length ≤ length cells.old) × (links_length ≤ length dropped.old)) }
    ensures memory { SolvesSheet ok s.now result tuples.new cells.new dropped.new }
    ensures answer { SolvingAnswer ok s.now result }
{
    if !ok {
        return Err(Refusal::ShortWork);
    }
    let layout = read(s)?;
    let sheet = ReadSheet { bytes: s, layout };
    solve(&sheet, tuples, cells, dropped).ok_or(Refusal::TooManyStates)
}

// The same, then 8.
#[tactic(auto, using(crate::proofs::Opened::opens_lost, crate::proofs::Opened::lost_answer, crate::proofs::Opened::opens_kept, crate::proofs::Opened::kept_answer))]
pub fn open_sheet(
    ok: bool,
    s: &[u8],
    tuples: &mut [u64],
    cells: &mut [u16],
    dropped: &mut [u16],
) -> Result<Solved, Refusal>
    requires { ok ≡ true → (tuples_length ≤ length tuples.old) × ((cells_length ≤ length cells.old) × (links_length ≤ length dropped.old)) }
    ensures memory { Opens ok s.now result tuples.new cells.new dropped.new }
    ensures answer { OpenAnswer ok s.now result }
    ensures start { IfOk result (λ opened. opened.start ≡ true) }
{
    let solved = solve_sheet(ok, s, tuples, cells, dropped)?;
    if !solved.start {
        return Err(Refusal::Unrealizable);
    }
    Ok(solved)
}
