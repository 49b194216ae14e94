// The head's record: grounds 3 and 6.
ghost use Rattle.std.specs.Prelude.{◌≡◌, ◌+◌, ◌≤◌, length};
ghost use Rattle.records.specs.Meaning.Limits.{max_inputs, max_outputs};
ghost use Rattle.sheet_fields.specs.Meaning.Places.{site_at, outputs_at, literals_from};
ghost use Rattle.sheet.specs.Model.HeadRecord.{head_sheet, read_head};

use crate::layout::{Monitor, Refusal, Sheet};
use records::limits::{Limits, horizon_ok};
use sheet_fields::body::Body;
use sheet_fields::head::{guard_lines, head_ok, literal_at};

// The sheet of a head that is in order, with no monitors yet.
#[tactic(auto, unfolding(crate::specs::Model::HeadRecord::head_sheet))]
pub fn head_sheet(body: &Body) -> Sheet
    requires { (site_at body.now.bytes.now body.now.start ≤ max_inputs) ×
        ((outputs_at body.now.bytes.now body.now.start ≤ max_outputs) ×
        (literals_from body.now.start + outputs_at body.now.bytes.now body.now.start ≤ length body.now.bytes.now)) }
    ensures { result ≡ head_sheet body.now.bytes.now body.now.start }
{
    let s = body.bytes;
    let start = body.start;
    let outputs = s[start + 2];
    let none = Monitor::none();
    Sheet {
        mode: s[start],
        site: s[start + 1],
        inputs: guard_lines(s[start], s[start + 1], outputs),
        outputs,
        horizon: s[start + 3],
        matching: s[start + 4],
        literals: [
            literal_at(s, start, outputs, 0),
            literal_at(s, start, outputs, 1),
            literal_at(s, start, outputs, 2),
        ],
        monitors: [none; Limits::MONITORS],
        count: 0,
    }
}

// A head's body, refused 3 before 6.
#[tactic(auto, using(records::specs::Laws::Tests::cases), unfolding(crate::specs::Model::HeadRecord::read_head))]
pub fn read_head(body: &Body) -> Result<Sheet, Refusal>
    ensures { result ≡ read_head body.now.bytes.now body.now.start body.now.size }
{
    if !head_ok(body) {
        return Err(Refusal::BadHead);
    }
    let s = body.bytes;
    let start = body.start;
    let inputs = guard_lines(s[start], s[start + 1], s[start + 2]);
    if !horizon_ok(inputs, s[start + 3]) {
        return Err(Refusal::LongHorizon);
    }
    Ok(head_sheet(body))
}
