// An offer to a table that is known to be good, for callers that have checked it: what came of it, and then the state after it.
ghost use Rattle.std.specs.Prelude.{◌≡◌, ◌<◌};
ghost use Rattle.told.specs.Told.{gave};
ghost use Rattle.totals.specs.Totals.{sum_of, most};
ghost use Rattle.tracker.specs.Table.{check_of};
ghost use Rattle.offers.specs.Whole.{whole, Leaves};
ghost use Rattle.offers.specs.Offer.{offering};
ghost use Rattle.offers.specs.Inner.{told_came, state_after};

use crate::steps;
use keeping::inner::keep;
use limits::inner as checks;
use skipping::inner as skip;
use totals::Fate;
use tracker::{Refusal, Second, Seq, SequenceTracker};

// What came of an offer that is counted: recorded, so that so many pairs stand; skipped; or refused for its pair, with 16 or 17. It is
// small: a list asks for one for each record, and a state in it would be copied each time.
// Stays: no plainer: one type for this and `Offered` would be over what each of the four cases holds, and they hold different things.
#[derive(Clone, Copy)]
pub enum Came {
    Recorded(usize),
    WentBack,
    TooSoon,
    PairRefused(Refusal),
}

// Stays: no plainer. That the table is good is asked here and by both walks of a log, and that its totals have room by `after` and three steps: a type for the first
// would borrow arrays that change with each offer, and one for the second be made for one call.
// An offer leaves a good table good, so a list of offers checks its table once. Refused, with 31, it is not counted.
pub fn offer_good(
    table: SequenceTracker,
    seqs: &mut [u64],
    secs: &mut [i64],
    seq: Seq,
    ts: Second,
) -> Result<Came, Refusal>
    requires { check_of table seqs.old secs.old ≡ gave tt }
    ensures { Leaves
        (offering (whole table seqs.old secs.old) seq ts)
        (told_came table ts result) seqs.new secs.new }
{
    let q = seq.0;
    let s = ts.0;
    if totals::inner::full(table.totals) {
        return Err(Refusal::TotalsFull);
    }
    if checks::out_of_domain(s) {
        return Ok(Came::PairRefused(Refusal::OfferedOutside));
    }
    let last = table.last_recorded_ts;
    if skip::skips(last, table.interval_secs, s) {
        if skip::went_back(last, s) {
            return Ok(Came::WentBack);
        }
        return Ok(Came::TooSoon);
    }
    let n = table.count;
    if steps::low_seq(seqs, n, q) {
        return Ok(Came::PairRefused(Refusal::OfferedDrops));
    }
    let capacity = table.capacity as usize;
    let count = keep(seqs, n, capacity, q);
    keep(secs, n, capacity, s);
    Ok(Came::Recorded(count))
}

// The state after it: a skip, or a refusal of the pair, changes nothing but a total.
pub fn after(table: SequenceTracker, came: Came, ts: Second) -> SequenceTracker
    requires { sum_of table.totals < most }
    ensures { result ≡ state_after table ts came }
{
    match came {
        Came::Recorded(count) => steps::with_pair(table, count, ts),
        Came::WentBack => steps::counted(table, Fate::WentBack),
        Came::TooSoon => steps::counted(table, Fate::TooSoon),
        Came::PairRefused(_) => steps::counted(table, Fate::Refused),
    }
}
