// Many questions to one table, which is checked once: how an answer stands in its place, and what such a call tells. The calls stand in `sheets`, up to
// sixteen questions in one record, and in `question_lists`, any number in lent slices.
#![tactic(auto)]

ghost use Rattle.std.specs.Prelude.{◌≡◌};
ghost use Rattle.questions.specs.declared.Refusal.TheVariants.{Table};

use tracker::{Second, Seq};

pub mod inner; // inner.rt: what our own crates call, and the kept pairs of a good table, which answer

// Stays: a mark beside the partner in both answers, and one struct for each, since they cross to C as they stand (#[repr(C)]).
// The answer to a question by sequence: 1 and the second, or 0 and the second 0 where nothing is answered.
#[repr(C)]
#[derive(Clone, Copy)]
pub struct TsAnswer {
    pub found: u64,
    pub second: Second,
}

// The answer to a question by second: 1 and the sequence, or 0 and the sequence 0 where nothing is answered.
#[repr(C)]
#[derive(Clone, Copy)]
pub struct SeqAnswer {
    pub found: u64,
    pub seq: Seq,
}

// Why a call on many questions refuses. `TooMany` is of sheets, `LengthsDiffer` of lists.
#[derive(Clone, Copy)]
pub enum Refusal {
    TooMany,
    LengthsDiffer,
    Table(tracker::Refusal),
}

impl From<tracker::Refusal> for Refusal {
    ghost from_gives = { λ why r. r ≡ Table why };

    fn from(why: tracker::Refusal) -> Refusal {
        Refusal::Table(why)
    }
}
