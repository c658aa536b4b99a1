// What a call gives as an answer: 0, and the values that it gives. A refusal is in `refusals`, and what is one or the other, a `Result`, here.
ghost use Rattle.std.specs.Prelude.{◌≡◌, ℕ, [], ◌∷◌, MatchResult};
ghost use Rattle.lookup.specs.Found.{partner_of};
ghost use Rattle.signed.specs.Signed.{pattern};
ghost use Rattle.answers.specs.Answer.{answer_of, found};

use crate::Answer;
use bits::Place;
use signed::as_unsigned;
use tracker::{Second, Seq};

// A check that passes gives no values.
impl From<()> for Answer {
    ghost from_gives = { λ _ answer. answer ≡ answer_of (0 ∷ []) };

    fn from(_: ()) -> Answer {
        Answer::telling(0, 0, 0, 0)
    }
}

// A count, or a length.
impl From<usize> for Answer {
    ghost from_gives = { λ n answer. answer ≡ answer_of (0 ∷ n ∷ []) };

    fn from(n: usize) -> Answer {
        Answer::telling(0, n as u64, 0, 0)
    }
}

// A signed number, by its 64 bits.
impl From<i64> for Answer {
    ghost from_gives = { λ z answer. answer ≡ answer_of (0 ∷ pattern z ∷ []) };

    fn from(z: i64) -> Answer {
        Answer::telling(0, as_unsigned(z), 0, 0)
    }
}

impl From<Second> for Answer {
    ghost from_gives = { λ s answer. answer ≡ answer_of (0 ∷ pattern s.0 ∷ []) };

    fn from(s: Second) -> Answer {
        s.0.into()
    }
}

// The place after the bits that were written.
impl From<Place> for Answer {
    ghost from_gives = { λ at answer. answer ≡ answer_of (0 ∷ at.byte ∷ at.bit ∷ []) };

    fn from(at: Place) -> Answer {
        Answer::telling(0, at.byte as u64, u64::from(at.bit), 0)
    }
}

// The bits that were read, and the place after them.
impl From<(u64, Place)> for Answer {
    ghost from_gives = { λ p answer. answer ≡ answer_of (0 ∷ p.0 ∷ p.1.byte ∷ p.1.bit ∷ []) };

    fn from((value, next): (u64, Place)) -> Answer {
        Answer::telling(0, value, next.byte as u64, u64::from(next.bit))
    }
}

// What a lookup finds, by its 64 bits.
pub trait Bits {
    ghost bits: { Self → ℕ };

    fn bits(self) -> u64
        ensures { result ≡ bits self };
}

impl Bits for Seq {
    ghost bits = { λ q. q.0 };

    fn bits(self) -> u64 {
        self.0
    }
}

impl Bits for Second {
    ghost bits = { λ s. pattern s.0 };

    fn bits(self) -> u64 {
        as_unsigned(self.0)
    }
}

// A lookup: 1 and what it finds, or 0 where nothing is answered.
impl<T: Bits> From<Option<T>> for Answer {
    ghost from_gives = { λ partner answer. answer ≡ answer_of (0 ∷ found T.bits (partner_of partner)) };

    fn from(partner: Option<T>) -> Answer {
        match partner {
            Some(x) => Answer::telling(0, 1, x.bits(), 0),
            None => Answer::telling(0, 0, 0, 0),
        }
    }
}

// What is given, or why it is refused.
impl<T: Into<Answer>, E: Into<Answer>> From<Result<T, E>> for Answer {
    ghost from_gives = { λ told answer. MatchResult told (λ given. T.converts given answer) (λ why. E.converts why answer) };

    fn from(told: Result<T, E>) -> Answer {
        match told {
            Ok(given) => given.into(),
            Err(why) => why.into(),
        }
    }
}
