// What the maker of plays refuses.
ghost use Rattle.std.specs.Prelude.{◌≡◌};
ghost use Rattle.forced.specs.Meaning.Answer.{stop_number};
ghost use Rattle.forced.specs.Laws.Grounds.{stop_positive};
ghost use Rattle.forced.specs.declared.answer.Ground.TheVariants as ground;

use records::numbered::Numbered;
use sheet::layout::Refusal;

// The grounds on which it refuses: the sheet is realizable, or one of the other calls' but that it is unrealizable.
#[derive(Clone, Copy, Debug, PartialEq, Eq)]
pub enum Ground {
    Realizable,
    Sheet(Refusal),
}

impl From<Refusal> for Ground {
    ghost from_gives = { λ cause stop. stop ≡ ground.Sheet cause };

    fn from(cause: Refusal) -> Ground {
        Ground::Sheet(cause)
    }
}

impl Numbered for Ground {
    ghost number_of = { stop_number };

    ghost refuses = { stop_positive };

    fn number(self) -> u8 {
        match self {
            Ground::Realizable => 23,
            Ground::Sheet(refusal) => refusal.number(),
        }
    }
}
