// The bytes of a supervisor table.
#![tactic(auto)]

ghost use Rattle.std.specs.Prelude.{◌≡◌, List, [], ◌∷◌, ◌++◌, ◌+◌, ◌*◌, ◌≤◌, ◌<◌, length};
ghost use Rattle.std.proofs.lemmas.List.Edits.{sets};
ghost use Rattle.records.specs.Meaning.Limits.{max_ins, max_outs, max_states};
ghost use Rattle.records.specs.Meaning.Lists.{tab, cat};
ghost use Rattle.records.specs.Meaning.Numbers.{u16_bytes};
ghost use Rattle.records.specs.Meaning.Records.{header};
ghost use Rattle.rounds.specs.Model.Tables.{over};
ghost use Rattle.rounds.specs.Model.TableRounds.{mask_of};
ghost use Rattle.supervisor_table.specs.Model.MaskRows.{mask_row_length, mask_table_length, table_row};

use records::cursor::put_header;
use records::numbers::put_u16;
use rounds::{Sifted, is_kept};

// The bytes of a row's record.
#[tactic(auto, unfolding(crate::specs::Model::MaskRows::mask_row_length))]
pub fn row_length(ins: usize) -> usize
    requires { ins ≤ max_ins }
    ensures { (result ≡ mask_row_length ins) × (result ≤ 21) }
{
    5 + ins
}

// The bytes of a table with so many states.
#[tactic(auto, unfolding(crate::specs::Model::MaskRows::mask_table_length))]
pub fn table_length(ins: usize, count: usize) -> usize
    requires { (ins ≤ max_ins) × (count ≤ max_states) }
    ensures { result ≡ mask_table_length ins count }
{
    9 + count * row_length(ins)
}

// The head, at the start of the result.
// Four numbers and no struct: one would be made for this call alone.
pub fn put_head(res: &mut [u8], mode: u8, inputs: u8, outputs: u8, count: u16)
    requires { 9 ≤ length res.old }
    ensures { res.new ≡ sets res.old 0 (header 5 19 ++ (mode ∷ inputs ∷ outputs ∷ u16_bytes count)) }
{
    put_header(res, 0, 5, 19);
    res[4] = mode;
    res[5] = inputs;
    res[6] = outputs;
    put_u16(res, 7, count);
}

// The masks of state k, one for each input.
// An index and no cut of the slice, here and in `put_row`: the promise says of the whole slice that all else stays.
pub fn put_masks(res: &mut [u8], at: usize, sifted: &Sifted, k: usize)
    requires outs_fit { sifted.now.table.outs ≤ max_outs }
    requires state { k < sifted.now.table.n }
    requires room { at + sifted.now.table.ins ≤ length res.old }
    ensures { res.new ≡ sets res.old at (tab sifted.now.table.ins
        (over sifted.now mask_of k)) }
{
    for i in 0..sifted.table.ins {
        res[at + i] = sifted.mask_of(k, i);
    }
}

// The record of state k.
pub fn put_row(res: &mut [u8], at: usize, sifted: &Sifted, k: usize)
    requires ins_fit { sifted.now.table.ins ≤ max_ins }
    requires outs_fit { sifted.now.table.outs ≤ max_outs }
    requires state { k < sifted.now.table.n }
    requires room { at + (5 + sifted.now.table.ins) ≤ length res.old }
    ensures { res.new ≡ sets res.old at (over sifted.now table_row k) }
{
    put_header(res, at, (1 + sifted.table.ins) as u16, 18);
    res[at + 4] = u8::from(is_kept(sifted.dropped, k));
    put_masks(res, at + 5, sifted, k);
}

// The records of all states, after the head.
pub fn put_rows(res: &mut [u8], sifted: &Sifted)
    requires ins_fit { sifted.now.table.ins ≤ max_ins }
    requires outs_fit { sifted.now.table.outs ≤ max_outs }
    requires room { mask_table_length sifted.now.table.ins sifted.now.table.n ≤ length res.old }
    ensures { res.new ≡ sets res.old 9 (cat sifted.now.table.n
        (over sifted.now table_row)) }
{
    let size = row_length(sifted.table.ins);
    for k in 0..sifted.table.n {
        put_row(res, 9 + k * size, sifted, k);
    }
}
