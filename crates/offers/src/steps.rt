// The test for 17, the states that an offer leaves, and its answer.
ghost use Rattle.std.specs.Prelude.{◌≡◌, ◌≤◌, ◌<◌, length};
ghost use Rattle.totals.specs.Totals.{sum_of, most};
ghost use Rattle.offers.specs.Offer.{told_outcome, low_seq, counting, state_with};
ghost use Rattle.offers.specs.Inner.{came_to};

use crate::inner::Came;
use crate::{Offered, inner};
use totals::Fate;
use totals::inner::one_more;
use tracker::{Second, SequenceTracker};

// Whether q is below the last kept sequence.
// Stays: no plainer: n beside the slice, as in the rule `low_seq` that the caller's clause names.
pub(crate) fn low_seq(seqs: &[u64], n: usize, q: u64) -> bool
    requires { n ≤ length seqs.now }
    ensures { result ≡ low_seq seqs.now n q }
{
    seqs[..n].last().is_some_and(|last| q < *last)
}

// The state after an offer that changes nothing but a total.
pub(crate) fn counted(table: SequenceTracker, fate: Fate) -> SequenceTracker
    requires { sum_of table.totals < most }
    ensures { result ≡ counting fate table }
{
    let totals = one_more(table.totals, fate);
    SequenceTracker { totals, ..table }
}

// The one place where the state after a recorded pair is built.
pub(crate) fn with_pair(table: SequenceTracker, count: usize, ts: Second) -> SequenceTracker
    requires { sum_of table.totals < most }
    ensures { result ≡ state_with table count ts }
{
    let at = Some(ts);
    let totals = one_more(table.totals, Fate::Recorded);
    SequenceTracker {
        count,
        last_recorded_ts: at,
        totals,
        ..table
    }
}

// What came of an offer, with the state after it.
pub(crate) fn offered(table: SequenceTracker, came: Came, ts: Second) -> Offered
    requires { sum_of table.totals < most }
    ensures { told_outcome result ≡ came_to table ts came }
{
    let next = inner::after(table, came, ts);
    match came {
        Came::Recorded(_) => Offered::Recorded(next),
        Came::WentBack => Offered::WentBack(next),
        Came::TooSoon => Offered::TooSoon(next),
        Came::PairRefused(why) => Offered::PairRefused { why, table: next },
    }
}
