// Logs of offers whose records stand in two lists: the lists of a caller, or the pairs that another table keeps.
#![tactic(auto)]

ghost use Rattle.offers.specs.Whole.{whole, Leaves};
ghost use Rattle.offer_log.specs.Log.{told_log};
ghost use Rattle.offer_log.specs.Pairs.{pairs_log_of, extend_of};

use offer_log::inner::finish;
use offer_log::{Logged, Refusal};
use pair_walk::inner::pairs_good;
use tracker::{SequenceTracker, check};

// Offers records, the sequences of which stand in one list and the seconds in another of the same length, in order, up to the
// first refusal. The table is checked once.
pub fn offer_pairs(
    table: SequenceTracker,
    seqs: &mut [u64],
    secs: &mut [i64],
    from_seqs: &[u64],
    from_secs: &[i64],
) -> Result<Logged, Refusal>
    ensures { Leaves
        (pairs_log_of (whole table seqs.old secs.old) from_seqs.now from_secs.now)
        (told_log result) seqs.new secs.new }
{
    if from_seqs.len() != from_secs.len() {
        return Err(Refusal::LengthsDiffer);
    }
    check(table, seqs, secs)?;
    Ok(finish(pairs_good(table, seqs, secs, from_seqs, from_secs)))
}

// Offers the pairs that another table keeps. The own table is checked before the other one.
pub fn extend_from(
    table: SequenceTracker,
    seqs: &mut [u64],
    secs: &mut [i64],
    other: SequenceTracker,
    other_seqs: &[u64],
    other_secs: &[i64],
) -> Result<Logged, Refusal>
    ensures { Leaves
        (extend_of (whole table seqs.old secs.old) (whole other other_seqs.now other_secs.now))
        (told_log result) seqs.new secs.new }
{
    let n = other.count;
    check(table, seqs, secs).map_err(|why| Refusal::Own(why))?;
    check(other, other_seqs, other_secs).map_err(|why| Refusal::Other(why))?;
    Ok(finish(pairs_good(table, seqs, secs, &other_seqs[..n], &other_secs[..n])))
}
