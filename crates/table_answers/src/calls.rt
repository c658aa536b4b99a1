// What a call gives that has a table, as it crosses with the table's state: a table, an offer, a list of offers; and what is that or a refusal.
ghost use Rattle.std.specs.Prelude.{◌≡◌, [], ◌∷◌, Ok, MatchResult};
ghost use Rattle.tallies.specs.Tally.{none_yet};
ghost use Rattle.offers.specs.Offer.{told_offer};
ghost use Rattle.offer_log.specs.Log.{told_log};
ghost use Rattle.states.specs.State.{state_of, no_state};
ghost use Rattle.answers.specs.declared.Answer.{Answer};
ghost use Rattle.table_answers.specs.Table.{table_answer_of, of_offer, of_log};

use crate::TableAnswer;
use answers::Answer;
use answers::inner::of_table_and;
use offer_log::Logged;
use offers::Offered;
use states::inner::{no_state, state_of};
use tallies::inner::{none_yet, of_one};
use tracker::SequenceTracker;

// A table alone: no offers were made.
impl From<SequenceTracker> for TableAnswer {
    ghost from_gives = { λ table answer. answer ≡ table_answer_of (0 ∷ []) none_yet (state_of table) };

    fn from(table: SequenceTracker) -> TableAnswer {
        TableAnswer {
            answer: Answer::from(()),
            tally: none_yet(),
            state: state_of(table),
        }
    }
}

// An offer that was judged: one that is refused for its pair has a table, too.
impl From<Offered> for TableAnswer {
    ghost from_gives = { λ offered answer. answer ≡ of_offer (told_offer (Ok offered)) };

    fn from(offered: Offered) -> TableAnswer {
        let tally = of_one(Ok(offered));
        let (answer, table) = match offered {
            Offered::Recorded(table) => (Answer::from(()), table),
            Offered::WentBack(table) => (Answer::from(()), table),
            Offered::TooSoon(table) => (Answer::from(()), table),
            Offered::PairRefused { why, table } => (Answer::from(why), table),
        };
        TableAnswer {
            answer,
            tally,
            state: state_of(table),
        }
    }
}

// A list of offers, all offered or stopped at a record: its refusal, and its position.
impl From<Logged> for TableAnswer {
    ghost from_gives = { λ logged answer. answer ≡ of_log (told_log (Ok logged)) };

    fn from(logged: Logged) -> TableAnswer {
        match logged {
            Logged::Done { table, tally } => TableAnswer {
                answer: Answer::from(()),
                tally,
                state: state_of(table),
            },
            Logged::Stopped {
                at,
                why,
                table,
                tally,
            } => TableAnswer {
                answer: of_table_and(why, at as u64),
                tally,
                state: state_of(table),
            },
        }
    }
}

// What is given, or why it is refused: then there is no table, and the state is one that every call refuses.
impl<T: Into<TableAnswer>, E: Into<Answer>> From<Result<T, E>> for TableAnswer {
    ghost from_gives = { λ told answer. MatchResult told (λ given. T.converts given answer) (λ why. (refusal : Answer) × E.converts why refusal × (answer ≡ record { answer = refusal; tally = none_yet; state = no_state })) };

    // Inline, so that what a list of offers told is no second struct on the stack of skut_offer_pairs, which the header bounds.
    #[inline(always)]
    fn from(told: Result<T, E>) -> TableAnswer {
        match told {
            Ok(given) => given.into(),
            Err(why) => TableAnswer {
                answer: why.into(),
                tally: none_yet(),
                state: no_state(),
            },
        }
    }
}
