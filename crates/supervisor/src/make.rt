// The maker of supervisor tables.
ghost use Rattle.std.specs.Prelude.{◌≡◌, true, [], ◌∷◌, ◌≤◌, length};
ghost use Rattle.records.specs.Meaning.Numbers.{zeros};
ghost use Rattle.product.specs.Model.ProductNumbering.{state_count, tuples_length, cells_length};
ghost use Rattle.states.specs.Model.Index.{links_length};
ghost use Rattle.solve.specs.Model.Making.{Answers};
ghost use Rattle.supervisor.specs.Model.SupervisorOfSheet.{supervisor_table};
ghost use Rattle.supervisor.specs.Promises.SupervisorMaker.{MakesSupervisor};

use records::limits::Limits;
use records::numbers::pow2;
use records::work::long_enough;
use rounds::{Sifted, StepTable};
use sheet::layout::Refusal;
use solve::made::Made;
use solve::opening::open_sheet;
use states::index::Index;
use supervisor_table::{put_head, put_rows, table_length};

// The maker: the work memory that it needs.
#[derive(Clone, Copy)]
pub struct Supervisor {}

impl Supervisor {
    // The tuple of each product state, as one number.
    pub const TUPLES: usize = Limits::STATES;

    // The table of steps: a cell for each product state and letter.
    pub const CELLS: usize = Limits::LETTERS * Limits::STATES;

    // The index of the tuples while they are numbered; then the round that dropped each product state.
    pub const DROPPED: usize = Index::LINKS;

    // Makes the supervisor table of a sheet. The work memory may hold anything, and is zero afterwards.
    // The slices come one by one, as C's caller lends them.
    // Each maker tests its own constants, so that its proof ties what callers lend by them to what its promise asks for.
    pub fn make(
        sheet: &[u8],
        res: &mut [u8],
        tuples: &mut [u64],
        cells: &mut [u16],
        dropped: &mut [u16],
    ) -> Result<Made, Refusal>
        ensures made { MakesSupervisor sheet.now res.old
            (length tuples.old ∷ length cells.old ∷ length dropped.old ∷ []) result res.new }
        ensures tuples { tuples.new ≡ zeros (length tuples.old) }
        ensures cells { cells.new ≡ zeros (length cells.old) }
        ensures dropped { dropped.new ≡ zeros (length dropped.old) }
    {
        let ok = long_enough(
            &[Supervisor::TUPLES, Supervisor::CELLS, Supervisor::DROPPED],
            &[tuples.len(), cells.len(), dropped.len()],
        );
        let made = make_with(ok, sheet, res, tuples, cells, dropped);
        tuples.fill(0);
        cells.fill(0);
        dropped.fill(0);
        made
    }
}

// The opening's refusals, then 9, and the result is written only then. The work memory is left as it falls; `ok` says that it is long
// enough.
// `ok` and the slices go on to the opening as they came: it refuses 10 for all makers.
fn make_with(
    ok: bool,
    s: &[u8],
    res: &mut [u8],
    tuples: &mut [u64],
    cells: &mut [u16],
    dropped: &mut [u16],
) -> Result<Made, Refusal>
    requires { ok ≡ true → (tuples_length ≤ length tuples.old) × ((cells_length ≤ length cells.old) × (links_length ≤ length dropped.old)) }
    ensures { Answers supervisor_table state_count ok s.now res.old result res.new }
{
    let opened = open_sheet(ok, s, tuples, cells, dropped)?;
    let sheet = opened.sheet;
    let states = opened.states;
    let ins = pow2(sheet.inputs);
    let length = table_length(ins, states);
    if res.len() < length {
        return Err(Refusal::ShortResult);
    }
    let table = StepTable {
        cells,
        n: states,
        ins,
        outs: pow2(sheet.outputs),
    };
    put_head(res, sheet.mode, sheet.inputs, sheet.outputs, states as u16);
    put_rows(res, &Sifted { table, dropped });
    Ok(Made { length, states })
}
