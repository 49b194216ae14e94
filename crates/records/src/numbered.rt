// The grounds of refusals, each with its number.
ghost use Rattle.std.specs.Prelude.{◌≡◌, ℕ, ◌<◌};
ghost use Rattle.records.specs.Meaning.Answers.{number_in};

// A ground on which a call refuses.
// Each enum casts itself in `number`: the trait has no body for it, since `Self` cannot be cast.
pub trait Numbered {
    // Document 01's number of the ground.
    ghost number_of: { Self → ℕ };

    fn number(self) -> u8
        ensures { result ≡ number_of self };

    // 0 says that nothing was refused.
    ghost refuses: { (cause : Self) → 0 < number_of cause };
}

// The number of an answer: 0, or that of the ground on which it is refused.
pub fn answer_number<T: Drop, E: Numbered>(answer: Result<T, E>) -> u8
    ensures { result ≡ number_in E.number_of answer }
{
    match answer {
        Ok(_) => 0,
        Err(cause) => cause.number(),
    }
}
