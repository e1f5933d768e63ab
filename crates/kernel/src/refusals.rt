// The refusals of document 01's table.
ghost use Rattle.std.specs.Prelude.{◌≡◌};
ghost use Rattle.kernel.specs.Answers.{number_of, answer_of};
ghost use Rattle.kernel.specs.declared.Answer.TheVariants.{Refused};

use super::Answer;

// By name, in the order of their numbers, which begin at 1.
#[derive(Clone, Copy, PartialEq, Eq)]
pub enum Refusal {
    BadModulus = 1,
    BadDegrees,
    BadTower,
    BadLength,
    BadForm,
    SmallAnswer,
    SmallWork,
    NotMonic,
    OfZero,
    NoResidue,
    TooLong,
}

// An answer carries the number alone.
impl From<Refusal> for Answer {
    ghost from_gives = { λ r a. a ≡ Refused (number_of r) };

    fn from(refusal: Refusal) -> Answer {
        Answer::Refused(refusal as usize)
    }
}

// The answer of a call by what its body comes to.
pub fn answer(r: Result<Answer, Refusal>) -> Answer
    ensures { result ≡ answer_of r }
{
    match r {
        Ok(answer) => answer,
        Err(refusal) => refusal.into(),
    }
}
