// The makers, on sheets of two counters and with work memory of their own.
ghost use Rattle.std.specs.Fn.{FnReturnsAt};
ghost use Rattle.sheet.specs.Meaning.Decoded.{encode};
ghost use Rattle.product.specs.Model.ProductNumbering.{state_count};
ghost use Rattle.supervisor.specs.Model.SupervisorOfSheet.{supervisor_table};
ghost use Rattle.plan.specs.Model.GuardOfSheet.{guard_table_of, states_of};
ghost use Rattle.notebook.specs.Model.Counters.{counters, Answered};
ghost use Rattle.notebook.specs.Model.Figures.{room};

use crate::counters::{TwoCounters, put_sheet};
use guard::make::Guard;
use guard_table::layout::Layout;
use sheet::layout::Refusal;
use solve::made::Made;
use supervisor::make::Supervisor;

// Each maker has work memory of its own, in arrays of the lengths that its constants say.
fn supervisor_of(sheet: &[u8]) -> Result<Made, Refusal>
    ensures { Answered supervisor_table state_count sheet.now room result }
{
    let mut result = [0u8; Layout::MOST];
    let mut tuples = [0u64; Supervisor::TUPLES];
    let mut cells = [0u16; Supervisor::CELLS];
    let mut dropped = [0u16; Supervisor::DROPPED];
    Supervisor::make(sheet, &mut result, &mut tuples, &mut cells, &mut dropped)
}

fn guard_of(sheet: &[u8]) -> Result<Made, Refusal>
    ensures { Answered guard_table_of states_of sheet.now room result }
{
    let mut result = [0u8; Layout::MOST];
    let mut tuples = [0u64; Guard::TUPLES];
    let mut cells = [0u16; Guard::CELLS];
    let mut dropped = [0u16; Guard::DROPPED];
    let mut gains = [0u16; Guard::GAINS];
    let mut bonuses = [0u16; Guard::BONUSES];
    let mut values = [0u64; Guard::VALUES];
    let mut arrivals = [0u64; Guard::ARRIVALS];
    let mut order = [0u16; Guard::ORDER];
    let mut numbers = [0u16; Guard::NUMBERS];
    Guard::make(
        sheet,
        &mut result,
        &mut tuples,
        &mut cells,
        &mut dropped,
        &mut gains,
        &mut bonuses,
        &mut values,
        &mut arrivals,
        &mut order,
        &mut numbers,
    )
}

// What a maker answers to two counters.
fn counters_made<F: Fn(&[u8]) -> Result<Made, Refusal>>(
    maker: F,
    pair: TwoCounters,
) -> Result<Made, Refusal>
    requires { F.IsAlwaysCallable maker }
    ensures { FnReturnsAt F.Fn maker (encode (counters pair.n pair.m)) result }
{
    let mut sheet = [0u8; 512];
    let size = put_sheet(&mut sheet, pair);
    maker(&sheet[..size])
}

// The supervisor's.
pub fn counters_supervisor(pair: TwoCounters) -> Result<Made, Refusal>
    ensures { Answered supervisor_table state_count (encode (counters pair.n pair.m)) room result }
{
    counters_made(supervisor_of, pair)
}

// And the guard's.
pub fn counters_guard(pair: TwoCounters) -> Result<Made, Refusal>
    ensures { Answered guard_table_of states_of (encode (counters pair.n pair.m)) room result }
{
    counters_made(guard_of, pair)
}
