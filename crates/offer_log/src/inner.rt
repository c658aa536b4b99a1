// A log record by record, for our own crates: one step, the answer. Every list of offers goes by these.
ghost use Rattle.std.specs.Prelude.{◌≡◌, ◌+◌, ◌<◌, ◌^◌};
ghost use Rattle.told.specs.Told.{gave};
ghost use Rattle.tracker.specs.Table.{check_of};
ghost use Rattle.tallies.specs.Tally.{total};
ghost use Rattle.offer_log.specs.Log.{told_logged};
ghost use Rattle.offer_log.specs.Inner.{told_end, stopped_of, Steps};

use crate::Logged;
use offers::inner::{Came, after, offer_good};
use tallies::Tally;
use tallies::inner::{counted, total};
use tracker::{Refusal, SequenceTracker, TrackedSeq};

// How far a log is that goes on.
#[derive(Clone, Copy)]
pub struct Progress {
    pub table: SequenceTracker,
    pub tally: Tally,
}

// Where a record has stopped it, and why. The table and the tally come first, as in `Progress`, so that a walk keeps both at one place, whether it goes on or not:
// a record of a list takes 56 instructions so, and 61 with them last.
#[derive(Clone, Copy)]
pub struct Stop {
    pub table: SequenceTracker,
    pub tally: Tally,
    pub at: usize,
    pub why: Refusal,
}

// The records before the one that stops it were counted, so their number is its position.
fn stopped(table: SequenceTracker, tally: Tally, why: Refusal) -> Stop
    requires { total tally < 2 ^ 64 }
    ensures { result ≡ stopped_of table tally why }
{
    Stop {
        at: total(tally),
        why,
        table,
        tally,
    }
}

// One record.
#[tactic(auto, unfolding(crate::specs::Log::run_of))]
pub fn step(
    seqs: &mut [u64],
    secs: &mut [i64],
    p: Progress,
    pair: TrackedSeq,
) -> Result<Progress, Stop>
    requires { (check_of p.table seqs.old secs.old ≡ gave tt) × (total p.tally + 1 < 2 ^ 64) }
    ensures { Steps p seqs.old secs.old pair result seqs.new secs.new }
{
    let own = p.table;
    match offer_good(own, seqs, secs, pair.seq, pair.ts) {
        Ok(came) => {
            let tally = counted(p.tally, came);
            let table = after(own, came, pair.ts);
            match came {
                Came::Recorded(_) => Ok(Progress { table, tally }),
                Came::WentBack => Ok(Progress { table, tally }),
                Came::TooSoon => Ok(Progress { table, tally }),
                Came::PairRefused(why) => Err(stopped(table, tally, why)),
            }
        }
        Err(why) => Err(stopped(own, p.tally, why)),
    }
}

// The answer.
pub fn finish(end: Result<Progress, Stop>) -> Logged
    ensures { told_logged result ≡ told_end end }
{
    match end {
        Ok(Progress { table, tally }) => Logged::Done { table, tally },
        Err(
            Stop {
                at,
                why,
                table,
                tally,
            },
        ) => Logged::Stopped {
            at,
            why,
            table,
            tally,
        },
    }
}
