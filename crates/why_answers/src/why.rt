// The answers of `why_ts` and `why_seq` as numbers.
ghost use Rattle.std.specs.Prelude.{◌≡◌};
ghost use Rattle.explaining.specs.Why.{told_why};
ghost use Rattle.why_answers.specs.Why.{explained, by_reason, of_why};

use crate::WhyAnswer;
use answers::Answer;
use answers::inner::Bits;
use explaining::{Reason, Why};
use tracker::Refusal;

impl WhyAnswer {
    // The one function that makes such an answer.
    fn explained(
        answer: Answer,
        reason: u32,
        position: usize,
        below: Option<usize>,
        above: Option<usize>,
    ) -> WhyAnswer
        ensures { result ≡ explained answer reason position below above }
    {
        WhyAnswer {
            answer,
            reason,
            has_below: u32::from(below.is_some()),
            has_above: u32::from(above.is_some()),
            position,
            below: below.unwrap_or(0),
            above: above.unwrap_or(0),
        }
    }

    fn by_reason(answer: Answer, reason: Reason) -> WhyAnswer
        ensures { result ≡ by_reason answer reason }
    {
        match reason {
            Reason::Exact(p) => WhyAnswer::explained(answer, 1, p, None, None),
            Reason::RoundedUp(below, above) => {
                WhyAnswer::explained(answer, 2, above, below, Some(above))
            }
            Reason::RoundedDown(below, above) => {
                WhyAnswer::explained(answer, 3, below, Some(below), above)
            }
            Reason::BeforeFirst => WhyAnswer::explained(answer, 4, 0, None, None),
            Reason::AfterLast => WhyAnswer::explained(answer, 5, 0, None, None),
            Reason::Empty => WhyAnswer::explained(answer, 6, 0, None, None),
        }
    }
}

// The lookup's own answer with its reason; refused, there is no reason.
impl<A: Bits> From<Result<Why<A>, Refusal>> for WhyAnswer {
    ghost from_gives = { λ why answer. answer ≡ of_why A.bits (told_why why) };

    fn from(why: Result<Why<A>, Refusal>) -> WhyAnswer {
        match why {
            Ok(why) => WhyAnswer::by_reason(Answer::from(why.answer), why.reason),
            Err(refusal) => WhyAnswer::explained(Answer::from(refusal), 0, 0, None, None),
        }
    }
}
