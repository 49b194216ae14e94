// The maker of guard tables, but for the test of its work memory.
ghost use Rattle.std.specs.Prelude.{◌≡◌, true, length};
ghost use Rattle.records.specs.Meaning.Numbers.{zeros};
ghost use Rattle.solve.specs.Model.Making.{Answers};
ghost use Rattle.plan.specs.Model.GuardOfSheet.{guard_table_of, states_of};
ghost use Rattle.plan.specs.Model.Planned.{Room};

use crate::horizon::{PlanWork, plan};
use guard_table::layout::guard_length;
use records::numbers::pow2;
use sheet::layout::{ReadSheet, Refusal};
use solve::made::Made;
use solve::opening::open_sheet;
use values::values::StepCells;

// Makes the guard table of a sheet. `ok` says that the work memory is long enough; it may hold anything, and is zero afterwards.
// The slices come one by one, as C's caller lends them.
// `ok` goes on to the opening, which refuses 10 for all makers.
pub fn make_cleared(
    ok: bool,
    s: &[u8],
    res: &mut [u8],
    tuples: &mut [u64],
    cells: &mut [u16],
    dropped: &mut [u16],
    gains: &mut [u16],
    bonuses: &mut [u16],
    values: &mut [u64],
    arrivals: &mut [u64],
    order: &mut [u16],
    numbers: &mut [u16],
) -> Result<Made, Refusal>
    requires { ok ≡ true → Room tuples.old cells.old dropped.old gains.old bonuses.old values.old arrivals.old order.old
        numbers.old }
    ensures made { Answers guard_table_of states_of ok s.now res.old result res.new }
    ensures tuples { tuples.new ≡ zeros (length tuples.old) }
    ensures cells { cells.new ≡ zeros (length cells.old) }
    ensures dropped { dropped.new ≡ zeros (length dropped.old) }
    ensures gains { gains.new ≡ zeros (length gains.old) }
    ensures bonuses { bonuses.new ≡ zeros (length bonuses.old) }
    ensures values { values.new ≡ zeros (length values.old) }
    ensures arrivals { arrivals.new ≡ zeros (length arrivals.old) }
    ensures order { order.new ≡ zeros (length order.old) }
    ensures numbers { numbers.new ≡ zeros (length numbers.old) }
{
    let work = PlanWork {
        gains,
        bonuses,
        values,
        arrivals,
        order,
        numbers,
    };
    let made = make_with(ok, s, res, tuples, cells, dropped, work);
    gains.fill(0);
    bonuses.fill(0);
    values.fill(0);
    arrivals.fill(0);
    order.fill(0);
    numbers.fill(0);
    tuples.fill(0);
    cells.fill(0);
    dropped.fill(0);
    made
}

// The opening, then the guard over the sheet's horizon, then 9, and the result is written only then. The work memory is left as it falls.
// `ok` and the slices go on to the opening as they came: it refuses 10 for all makers.
fn make_with<'a>(
    ok: bool,
    s: &[u8],
    res: &mut [u8],
    tuples: &mut [u64],
    cells: &'a mut [u16],
    dropped: &'a mut [u16],
    work: PlanWork<'a>,
) -> Result<Made, Refusal>
    requires { ok ≡ true → Room tuples.old cells.old dropped.old work.gains.now work.bonuses.now work.values.now
        work.arrivals.now work.order.now work.numbers.now }
    ensures { Answers guard_table_of states_of ok s.now res.old result res.new }
{
    let opened = open_sheet(ok, s, tuples, cells, dropped)?;
    let layout = opened.sheet;
    let sheet = ReadSheet { bytes: s, layout };
    let steps = StepCells {
        cells,
        ins: pow2(layout.inputs),
        outs: pow2(layout.outputs),
    };
    let guard = plan(
        &sheet,
        layout.horizon,
        opened.states,
        tuples,
        steps,
        dropped,
        work,
    );
    let length = guard_length(layout.inputs, guard.count);
    if res.len() < length {
        return Err(Refusal::ShortResult);
    }
    guard.write(res, layout, layout.horizon);
    Ok(Made {
        length,
        states: guard.count,
    })
}
