// The bytes of a guard table: its head, and a row for each of the guard's states.
ghost use Rattle.std.specs.Prelude.{◌≡◌, ◌^◌, ◌≤◌, length, get_or};
ghost use Rattle.std.proofs.lemmas.List.Edits.{sets};
ghost use Rattle.records.specs.Meaning.Limits.{max_inputs};
ghost use Rattle.records.specs.Meaning.Lists.{cat};
ghost use Rattle.guard_table.specs.Meaning.GuardTable.{head_length, table_length, row_at};
ghost use Rattle.guard_table.specs.Meaning.RowKind.{kind_for};
ghost use Rattle.guard_table.specs.Model.Inside.{RowInside};
ghost use Rattle.values.specs.Model.Tables.{steps_in};
ghost use Rattle.guard_rows.specs.Model.Entered.{guard_row_by, table_by, Entered, Tabled};

use crate::states::Row;
use guard_table::entry::{Entry, put_entry};
use guard_table::heads::{put_head, put_row_header};
use guard_table::kind::RowKind;
use guard_table::layout::Layout;
use sheet::layout::Sheet;
use values::values::StepCells;

// The row of guard state `place`, which is product state k: an entry for each input, the output that is its digit of `row` and the
// guard state after it.
pub fn put_row(
    res: &mut [u8],
    layout: Layout,
    place: usize,
    steps: &StepCells,
    row: u64,
    numbers: &[u16],
    k: usize,
)
    requires entered { Entered layout.kind (steps_in steps.now) row numbers.now k }
    requires inside { (steps.now.ins ≡ 2 ^ layout.inputs) × RowInside res.old layout.kind layout.inputs place }
    ensures { res.new ≡ sets res.old (row_at layout.kind layout.inputs place)
        (guard_row_by layout.kind layout.inputs (steps_in steps.now) row numbers.now k) }
{
    let kind = layout.kind;
    put_row_header(res, layout, place);
    let mut rest = row;
    for i in 0..steps.ins {
        let output = (rest % Row::OUTS) as u8;
        rest /= Row::OUTS;
        let to = steps.next_of(k, i, output as usize);
        let next = numbers[to] - 1;
        let at = layout.entry_at(place, i);
        put_entry(res, at, kind, Entry { output, next });
    }
}

// A guard that was planned, as planning leaves it: the product state of each of its `count` states in `order`, their rows, and for
// each product state its number and 1 more. The count stands beside the slices: they are work memory, lent for as many states as a sheet
// can have.
#[derive(Clone, Copy)]
pub struct PlannedGuard<'a> {
    pub steps: StepCells<'a>,
    pub rows: &'a [u64],
    pub order: &'a [u16],
    pub numbers: &'a [u16],
    pub count: usize,
    pub ghost tabled: { Tabled (steps_in steps) rows.now order.now numbers.now count },
}

impl PlannedGuard<'_> {
    // The rows of the guard's states, after the head; `lines` is the number of input lines.
    pub fn put_rows(&self, res: &mut [u8], lines: u8)
        requires { (self.now.steps.ins ≡ 2 ^ lines) × ((lines ≤ max_inputs) × (table_length lines self.now.count ≤ length res.old)) }
        ensures { res.new ≡ sets res.old head_length
            (cat self.now.count (λ j. guard_row_by (kind_for self.now.count) lines (steps_in self.now.steps) (get_or self.now.rows.now j 0)
            self.now.numbers.now (get_or self.now.order.now j 0))) }
    {
        let layout = Layout {
            inputs: lines,
            kind: RowKind::of(self.count),
        };
        for j in 0..self.count {
            let row = self.rows[j];
            let k = self.order[j] as usize;
            put_row(res, layout, j, &self.steps, row, self.numbers, k);
        }
    }

    // The guard's table, at the start of the result.
    pub fn write(&self, res: &mut [u8], sheet: Sheet, horizon: u8)
        requires { (self.now.steps.ins ≡ 2 ^ sheet.inputs)
            × ((sheet.inputs ≤ max_inputs) × (table_length sheet.inputs self.now.count ≤ length res.old)) }
        ensures { res.new ≡ sets res.old 0
            (table_by sheet.mode sheet.inputs sheet.outputs horizon self.now.count (steps_in self.now.steps)
            self.now.rows.now self.now.order.now self.now.numbers.now) }
    {
        put_head(
            res,
            sheet.mode,
            sheet.inputs,
            sheet.outputs,
            horizon,
            self.count as u16,
        );
        self.put_rows(res, sheet.inputs);
    }
}
