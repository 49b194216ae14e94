// A board by its 16 bytes.
ghost use Rattle.std.specs.Prelude.{◌≡◌, cond, [], ◌∷◌, ◌+◌, ◌≤◌, length};
ghost use Rattle.std.proofs.lemmas.List.Edits.{sets};
ghost use Rattle.board_bytes.specs.Meaning.BoardBytes.{u32_at, u32_bytes, board_in, board_bytes};

use crate::BoardBytes;
use board::Board;
use records::numbers::{put_u16, u16_at};

// The four-byte number at an index.
// No one function over the width, here and in `put_u32`: `from_le_bytes` is each integer's own.
#[tactic(auto, unfolding(crate::specs::Meaning::BoardBytes::u32_at, records::specs::Meaning::Numbers::u16_at))]
pub fn u32_at(s: &[u8], at: usize) -> u32
    requires { at + 4 ≤ length s.now }
    ensures { result ≡ u32_at s.now at }
{
    u32::from_le_bytes([s[at], s[at + 1], s[at + 2], s[at + 3]])
}

// Writes a four-byte number at an index.
// An index and no cut of the slice: the promise says of the whole slice that all else stays.
pub fn put_u32(out: &mut [u8], at: usize, value: u32)
    requires { at + 4 ≤ length out.old }
    ensures { out.new ≡ sets out.old at (u32_bytes value) }
{
    let [first, second, third, fourth] = value.to_le_bytes();
    out[at] = first;
    out[at + 1] = second;
    out[at + 2] = third;
    out[at + 3] = fourth;
}

// The board that the bytes stand for.
// No `From`, here and in `put_board`: neither it nor `Board` is of this crate.
pub fn board_in(s: &[u8; BoardBytes::LENGTH]) -> Board
    ensures { result ≡ board_in s.now }
{
    Board {
        loaded: s[0] == 1,
        mode: s[1],
        inputs: s[2],
        outputs: s[3],
        count: u16_at(s, 4),
        place: u16_at(s, 6),
        steps: u32_at(s, 8),
        deviations: u32_at(s, 12),
    }
}

// Writes the fields of one byte.
fn put_first(out: &mut [u8], board: Board)
    requires { 4 ≤ length out.old }
    ensures { out.new ≡ sets out.old 0 (cond board.loaded 1 0 ∷ board.mode ∷ board.inputs ∷ board.outputs ∷ []) }
{
    out[0] = board.loaded as u8;
    out[1] = board.mode;
    out[2] = board.inputs;
    out[3] = board.outputs;
}

// Writes a board's bytes.
pub fn put_board(out: &mut [u8; BoardBytes::LENGTH], board: Board)
    ensures { out.new ≡ board_bytes board }
{
    put_first(out, board);
    put_u16(out, 4, board.count);
    put_u16(out, 6, board.place);
    put_u32(out, 8, board.steps);
    put_u32(out, 12, board.deviations);
}
