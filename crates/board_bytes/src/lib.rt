// The board's calls over a board's 16 bytes; an answer is document 01's number. On a refusal no byte is changed.
#![tactic(auto)]

ghost use Rattle.std.specs.Prelude.{◌≡◌};
ghost use Rattle.records.specs.Meaning.Answers.{number_in};
ghost use Rattle.board_bytes.specs.Meaning.ByteCalls.{bytes_after};
ghost use Rattle.board_bytes.specs.Promises.ByteCalls.{LoadCall, StepCall, RewindCall, UnloadCall};

use crate::layout::{board_in, put_board};
use board::answers::Answered;
use records::numbered::Numbered;

mod layout;
pub mod numbers;

// A board's bytes.
#[derive(Clone, Copy)]
pub struct BoardBytes {}

impl BoardBytes {
    // So many they are.
    pub const LENGTH: usize = 16;
}

// Reports what a call on the board answered, and writes the board that it hands back where it was not refused.
#[tactic(auto, unfolding(crate::specs::Meaning::ByteCalls::bytes_after))]
fn hand_back<T: Drop, E: Numbered>(
    board: &mut [u8; BoardBytes::LENGTH],
    answered: Answered<Result<T, E>>,
) -> u32
    ensures number { result ≡ number_in E.number_of answered.answer }
    ensures bytes { board.new ≡ bytes_after board.old (number_in E.number_of answered.answer) answered.board }
{
    let Answered {
        board: after,
        answer,
    } = answered;
    match answer {
        Ok(_) => {
            put_board(board, after);
            0
        }
        Err(cause) => cause.number() as u32,
    }
}

// Loads a table.
pub fn load(board: &mut [u8; BoardBytes::LENGTH], table: &[u8]) -> u32
    ensures { LoadCall board.old table.now result board.new }
{
    let loading = board_in(board).load(table);
    hand_back(board, loading)
}

// Answers an input: the number, and 65,536 times the output.
pub fn step(board: &mut [u8; BoardBytes::LENGTH], table: &[u8], input: u8) -> u32
    ensures { StepCall board.old table.now input result board.new }
{
    let stepping = board_in(board).step(table, input);
    let output = stepping.answer.unwrap_or(0);
    let number = hand_back(board, stepping);
    number + 65536 * (output as u32)
}

// Begins the run anew.
pub fn rewind(board: &mut [u8; BoardBytes::LENGTH]) -> u32
    ensures { RewindCall board.old result board.new }
{
    let rewinding = board_in(board).rewind();
    hand_back(board, rewinding)
}

// Empties the board.
pub fn unload(board: &mut [u8; BoardBytes::LENGTH]) -> u32
    ensures { UnloadCall board.old result board.new }
{
    let unloading = board_in(board).unload();
    hand_back(board, unloading)
}
