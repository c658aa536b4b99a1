// A log of offers: records offered to a table in order, up to the first refusal. Here are what comes of one and the step of one
// record; `log_records` has the log that arrives as a lent list of records, `log_pairs` those whose records stand in two lists.
#![tactic(auto)]

ghost use Rattle.std.specs.Prelude.{◌≡◌};
ghost use Rattle.offer_log.specs.declared.Refusal.TheVariants.{Table};

use tallies::Tally;
use tracker::SequenceTracker;

pub mod inner; // inner.rt: a log record by record, for our own crates

// What came of a log: all records offered; or stopped at the record `at`, with the state that its offer left: refused with 16 or 17
// it is counted there, with 31 it is not.
#[derive(Clone, Copy)]
pub enum Logged {
    Done {
        table: SequenceTracker,
        tally: Tally,
    },
    Stopped {
        at: usize,
        why: tracker::Refusal,
        table: SequenceTracker,
        tally: Tally,
    },
}

// Why a log is refused before the first record: a table is bad (where there are two, the own or the other), or the two lists of
// records differ in length.
#[derive(Clone, Copy)]
pub enum Refusal {
    Table(tracker::Refusal),
    Own(tracker::Refusal),
    Other(tracker::Refusal),
    LengthsDiffer,
}

impl From<tracker::Refusal> for Refusal {
    ghost from_gives = { λ why r. r ≡ Table why };

    fn from(why: tracker::Refusal) -> Refusal {
        Refusal::Table(why)
    }
}
