// The guard board: the record that a guard's run keeps between calls, and the calls on it.
// A call takes the board and hands it back with its answer; a refused call hands back the same board, field by field.
#![tactic(auto)]

ghost use Rattle.std.specs.Prelude.{◌≡◌, true, Err, ◌-◌, ◌^◌, ◌<◌, ◌≤◌, length};
ghost use Rattle.guard_table.specs.Meaning.GuardTable.{head_length};
ghost use Rattle.board.specs.Meaning.Board.{counts_ok, live, run_at};
ghost use Rattle.board.specs.Meaning.Load.{board_of};
ghost use Rattle.game.specs.Meaning.Proposal.{deviates};
ghost use Rattle.board.specs.Meaning.BoardStep.{board_moved, length_fits, looked_up};
ghost use Rattle.board.specs.Promises.Board.{EmptyPromise, LoadPromise, StepPromise, RewindPromise, UnloadPromise};

use crate::answers::{Answered, ChangeRefusal, LoadRefusal, StepRefusal};
use guard_table::entry::{entry_in, entry_ok};
use guard_table::kind::shown_kind;
use guard_table::layout::Layout;
use guard_table::loadable::is_loadable;
use records::limits::{Limits, lines_ok};
use records::numbers::{pow2, u16_at};

pub mod answers;

// The fields are plain, a flag and numbers of any value: callers lend boards that count as empty whatever their fields hold, and a
// refused call hands back the same.
#[derive(Clone, Copy)]
pub struct Board {
    pub loaded: bool,
    // 0 controller, 1 shield
    pub mode: u8,
    // lines
    pub inputs: u8,
    pub outputs: u8,
    // the table's states, and the present one
    pub count: u16,
    pub place: u16,
    // since the last load or rewind
    pub steps: u32,
    pub deviations: u32,
}

// The board that a table gives: its head's mode, lines and count, at the start of a run.
#[tactic(auto, unfolding(crate::specs::Meaning::Load::board_of))]
fn board_of(t: &[u8]) -> Board
    requires { head_length ≤ length t.now }
    ensures { result ≡ board_of t.now }
{
    Board {
        loaded: true,
        mode: t[Layout::MODE],
        inputs: t[Layout::INPUTS],
        outputs: t[Layout::OUTPUTS],
        count: u16_at(t, Layout::COUNT),
        place: 0,
        steps: 0,
        deviations: 0,
    }
}

impl Board {
    // A run has at most so many steps.
    pub const STEP_LIMIT: u32 = 1_000_000;

    // The board with nothing loaded.
    pub fn empty() -> Board
        ensures { EmptyPromise result }
    {
        Board {
            loaded: false,
            mode: 0,
            inputs: 0,
            outputs: 0,
            count: 0,
            place: 0,
            steps: 0,
            deviations: 0,
        }
    }

    // Whether count, place, steps and deviations are in range.
    #[tactic(auto, using(records::specs::Laws::Tests::cases), unfolding(crate::specs::Meaning::Board::counts_ok))]
    fn counts_ok(self) -> bool
        ensures { result ≡ counts_ok self.mode self.count self.place self.steps self.deviations }
    {
        if self.count < 1 {
            return false;
        }
        if Limits::STATES < self.count as usize {
            return false;
        }
        if self.count <= self.place {
            return false;
        }
        if Board::STEP_LIMIT < self.steps {
            return false;
        }
        if self.steps < self.deviations {
            return false;
        }
        self.mode == 1 || self.deviations == 0
    }

    // Whether the board is loaded with every field in its range; any other board counts as empty.
    fn is_live(self) -> bool
        ensures { result ≡ live self }
    {
        self.loaded && lines_ok(self.mode, self.inputs, self.outputs) && self.counts_ok()
    }

    // The same board, with a refusal.
    fn refused<T, E>(self, refusal: E) -> Answered<Result<T, E>>
        ensures { result ≡ record { board = self; answer = Err refusal } }
    {
        Answered {
            board: self,
            answer: Err(refusal),
        }
    }

    // Loads a table into a board that counts as empty. Refuses 21, 11.
    pub fn load(self, table: &[u8]) -> Answered<Result<(), LoadRefusal>>
        ensures { LoadPromise self table.now result }
    {
        if self.is_live() {
            return self.refused(LoadRefusal::Occupied);
        }
        if !is_loadable(table) {
            return self.refused(LoadRefusal::BadTable);
        }
        Answered {
            board: board_of(table),
            answer: Ok(()),
        }
    }

    // Answers an input by the table's entry at the board's place. Refuses 20, 22, 12, 11.
    pub fn step(self, table: &[u8], input: u8) -> Answered<Result<u8, StepRefusal>>
        ensures { StepPromise self table.now input result }
    {
        if !self.is_live() {
            return self.refused(StepRefusal::Empty);
        }
        if Board::STEP_LIMIT <= self.steps {
            return self.refused(StepRefusal::Spent);
        }
        if pow2(self.inputs) <= input as usize {
            return self.refused(StepRefusal::BadInput);
        }
        let running = LiveBoard { board: self };
        running.look_up(table, input)
    }

    // Begins the run of the loaded table anew. Refuses 20.
    pub fn rewind(self) -> Answered<Result<(), ChangeRefusal>>
        ensures { RewindPromise self result }
    {
        if !self.is_live() {
            return self.refused(ChangeRefusal::Empty);
        }
        Answered {
            board: self.run_at(0, 0, 0),
            answer: Ok(()),
        }
    }

    // Empties the board. Refuses 20.
    pub fn unload(self) -> Answered<Result<(), ChangeRefusal>>
        ensures { UnloadPromise self result }
    {
        if !self.is_live() {
            return self.refused(ChangeRefusal::Empty);
        }
        Answered {
            board: Board::empty(),
            answer: Ok(()),
        }
    }

    // The board with its table's run at another point.
    #[tactic(auto, unfolding(crate::specs::Meaning::Board::run_at))]
    fn run_at(self, place: u16, steps: u32, deviations: u32) -> Board
        ensures { result ≡ run_at self place steps deviations }
    {
        Board {
            place,
            steps,
            deviations,
            ..self
        }
    }
}

// A board that is loaded with every field in its range.
#[derive(Clone, Copy)]
struct LiveBoard {
    board: Board,
    ghost live: { live board ≡ true },
}

impl LiveBoard {
    // Whether, in mode 1, the output is not what the input proposes.
    fn deviates(self, input: u8, output: u8) -> bool
        ensures { result ≡ deviates self.board.mode (self.board.inputs - self.board.outputs) input output }
    {
        if self.board.mode == 1 {
            let proposal = (input as usize) / pow2(self.board.inputs - self.board.outputs);
            return output as usize != proposal;
        }
        false
    }

    // Whether the slice shows the kind of its rows, and is as long as the board's table in such rows.
    fn length_fits(self, table: &[u8]) -> bool
        ensures { result ≡ length_fits self.board table.now }
    {
        match shown_kind(table) {
            Some(kind) => {
                let layout = Layout {
                    inputs: self.board.inputs,
                    kind,
                };
                let count = self.board.count as usize;
                table.len() == layout.table_length(count)
            }
            None => false,
        }
    }

    // The step at an input below 2^inputs: the slice's length, the kind of its first row and one entry are looked at.
    fn look_up(self, table: &[u8], input: u8) -> Answered<Result<u8, StepRefusal>>
        requires { input < 2 ^ self.board.inputs }
        ensures { result ≡ looked_up self.board table.now input }
    {
        let board = self.board;
        if !self.length_fits(table) {
            return board.refused(StepRefusal::BadTable);
        }
        let entry = entry_in(table, board.inputs, board.place as usize, input as usize);
        if !entry_ok(entry, board.outputs, board.count as usize) {
            return board.refused(StepRefusal::BadTable);
        }
        self.moved(input, entry.output, entry.next)
    }

    // The step to a next state, with its output.
    fn moved(self, input: u8, output: u8, next: u16) -> Answered<Result<u8, StepRefusal>>
        ensures { result ≡ board_moved self.board input output next }
    {
        let board = self.board;
        let more = self.deviates(input, output) as u32;
        Answered {
            board: board.run_at(next, board.steps + 1, board.deviations + more),
            answer: Ok(output),
        }
    }
}
