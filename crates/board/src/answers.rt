// What the calls on a board hand back: the board, and an answer. A refusal is document 01's number.
ghost use Rattle.std.specs.Prelude.{Err};
ghost use Rattle.board.specs.Meaning.Board.{change_number};
ghost use Rattle.board.specs.Meaning.Load.{load_number};
ghost use Rattle.board.specs.Meaning.BoardStep.{step_number};
ghost use Rattle.board.specs.Laws.Numbers.{load_refuses, step_refuses, change_refuses};

use crate::Board;
use records::numbered::Numbered;

#[derive(Clone, Copy)]
pub struct Answered<T> {
    pub board: Board,
    pub answer: T,
}

#[derive(Clone, Copy, Debug, PartialEq, Eq)]
pub enum LoadRefusal {
    // the board is loaded
    Occupied = 21,
    // the slice is no loadable table
    BadTable = 11,
}

#[derive(Clone, Copy, Debug, PartialEq, Eq)]
pub enum StepRefusal {
    // the board counts as empty
    Empty = 20,
    // the run has its 1,000,000 steps
    Spent = 22,
    // the input is not below 2^inputs
    BadInput = 12,
    // the slice shows no kind of rows, is not as long as the board's table in such rows, or the entry read is out of range
    BadTable = 11,
}

// Of rewind and unload.
#[derive(Clone, Copy, Debug, PartialEq, Eq)]
pub enum ChangeRefusal {
    // the board counts as empty
    Empty = 20,
}

impl Numbered for LoadRefusal {
    ghost number_of = { λ cause. load_number (Err cause) };

    ghost refuses = { load_refuses };

    fn number(self) -> u8 {
        self as u8
    }
}

impl Numbered for StepRefusal {
    ghost number_of = { λ cause. step_number (Err cause) };

    ghost refuses = { step_refuses };

    fn number(self) -> u8 {
        self as u8
    }
}

impl Numbered for ChangeRefusal {
    ghost number_of = { λ cause. change_number (Err cause) };

    ghost refuses = { change_refuses };

    fn number(self) -> u8 {
        self as u8
    }
}
