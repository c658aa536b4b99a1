// A log of offers that arrives as a lent list of records, each a sequence and a second.
#![tactic(auto)]

ghost use Rattle.std.specs.Prelude.{◌≡◌};
ghost use Rattle.told.specs.Told.{gave};
ghost use Rattle.tracker.specs.Table.{check_of};
ghost use Rattle.offers.specs.Whole.{whole, Leaves};
ghost use Rattle.offer_log.specs.Log.{told_log, log_of};
ghost use Rattle.offer_log.specs.Inner.{Walks};

use offer_log::inner::{Progress, Stop, finish, step};
use offer_log::{Logged, Refusal};
use tallies::inner::none_yet;
use tracker::{SequenceTracker, TrackedSeq, check};

// The records in order, up to the first refusal.
#[tactic(auto, using(offer_log::proofs::Run::started, offer_log::proofs::Run::ended))]
fn walk(
    table: SequenceTracker,
    seqs: &mut [u64],
    secs: &mut [i64],
    records: &[TrackedSeq],
) -> Result<Progress, Stop>
    requires { check_of table seqs.old secs.old ≡ gave tt }
    ensures { Walks table seqs.old secs.old records.now result seqs.new secs.new }
{
    let mut p = Progress {
        table,
        tally: none_yet(),
    };
    for pair in records {
        p = step(seqs, secs, p, *pair)?;
    }
    Ok(p)
}

// Offers the records of a lent list in order, up to the first refusal. The table is checked once.
pub fn offer_all(
    table: SequenceTracker,
    seqs: &mut [u64],
    secs: &mut [i64],
    records: &[TrackedSeq],
) -> Result<Logged, Refusal>
    ensures { Leaves
        (log_of (whole table seqs.old secs.old) records.now)
        (told_log result) seqs.new secs.new }
{
    check(table, seqs, secs)?;
    Ok(finish(walk(table, seqs, secs, records)))
}
