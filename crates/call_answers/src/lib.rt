// The answers of the calls that give a sheet, as structs of numbers, for programs in other languages. `table_answers` and `why_answers` have
// others, `answers` the rest, and the exported calls stand in `skutlaneb`.
#![tactic(auto)]

ghost use Rattle.std.specs.Prelude.{◌≡◌};
ghost use Rattle.questions.specs.Asked.{told_asked};
ghost use Rattle.answers.specs.Answer.{of_check};

use answers::Answer;
use sheets::{SeqSheet, SeqSheetBack, TsSheet, TsSheetBack};

// The sheet comes back with the answers to its used questions, or, refused, as it went in.
// Stays: two structs: the C interface; no struct with a type parameter may stand in the signature of an exported function.
#[repr(C)]
#[derive(Clone, Copy)]
pub struct TsSheetAnswer {
    pub answer: Answer,
    pub sheet: TsSheet,
}

#[repr(C)]
#[derive(Clone, Copy)]
pub struct SeqSheetAnswer {
    pub answer: Answer,
    pub sheet: SeqSheet,
}

impl From<TsSheetBack> for TsSheetAnswer {
    ghost from_gives = { λ back crossed. crossed ≡ record { answer = of_check (told_asked back.asked); sheet = back.sheet } };

    fn from(back: TsSheetBack) -> TsSheetAnswer {
        TsSheetAnswer {
            answer: Answer::from(back.asked),
            sheet: back.sheet,
        }
    }
}

impl From<SeqSheetBack> for SeqSheetAnswer {
    ghost from_gives = { λ back crossed. crossed ≡ record { answer = of_check (told_asked back.asked); sheet = back.sheet } };

    fn from(back: SeqSheetBack) -> SeqSheetAnswer {
        SeqSheetAnswer {
            answer: Answer::from(back.asked),
            sheet: back.sheet,
        }
    }
}
