// One offer to a table: a pair is recorded, skipped, with the reason, or refused; and, unless the table is bad or its totals are full, the
// offer is counted.
#![tactic(auto)]

ghost use Rattle.offers.specs.Whole.{whole, Leaves};
ghost use Rattle.offers.specs.Offer.{told_offer, offering};

use tracker::{Refusal, Second, Seq, SequenceTracker, check};

pub mod inner;
mod steps;

// An offer that is counted, with the state after it: a pair that is skipped, or refused for itself (16, 17), changes nothing of it but
// a total.
#[derive(Clone, Copy)]
pub enum Offered {
    Recorded(SequenceTracker),
    WentBack(SequenceTracker),
    TooSoon(SequenceTracker),
    PairRefused {
        why: Refusal,
        table: SequenceTracker,
    },
}

// Offers a pair to the table: the table is checked first. Where it is bad, or its totals are full, the offer is refused, and nothing
// is counted.
pub fn offer(
    table: SequenceTracker,
    seqs: &mut [u64],
    secs: &mut [i64],
    seq: Seq,
    ts: Second,
) -> Result<Offered, Refusal>
    ensures { Leaves
        (offering (whole table seqs.old secs.old) seq ts)
        (told_offer result) seqs.new secs.new }
{
    check(table, seqs, secs)?;
    let came = inner::offer_good(table, seqs, secs, seq, ts)?;
    Ok(steps::offered(table, came, ts))
}
