// What is reported of an answer: document 01's number, 0 for no refusal, and its figures, 0 on a refusal.
ghost use Rattle.std.specs.Prelude.{◌≡◌};
ghost use Rattle.records.specs.Meaning.Answers.{number_in};
ghost use Rattle.board_bytes.specs.Promises.ByteCalls.{figures_of};

use records::numbered::Numbered;
use solve::made::Made;

// What is reported of an answer beside its number.
#[derive(Clone, Copy)]
pub struct Figures {}

impl Figures {
    // Of a table or play that was made: its length and its states.
    pub const MADE: usize = 2;

    // Of a listing: its length.
    pub const LISTED: usize = 1;
}

// Reports what a maker answers, whatever its grounds: the figures are stored, the number is handed back.
pub fn report<E: Numbered>(answer: Result<Made, E>, figures: &mut [u64; Figures::MADE]) -> u32
    ensures number { result ≡ number_in E.number_of answer }
    ensures figures { figures.new ≡ figures_of answer }
{
    match answer {
        Ok(made) => {
            *figures = [made.length as u64, made.states as u64];
            0
        }
        Err(cause) => {
            *figures = [0, 0];
            cause.number() as u32
        }
    }
}
