// The pairs of two lists, offered to a table that is known to be good.
ghost use Rattle.std.specs.Prelude.{◌≡◌, length};
ghost use Rattle.told.specs.Told.{gave};
ghost use Rattle.tracker.specs.Table.{check_of};
ghost use Rattle.offer_log.specs.Pairs.{pair_of, records_of};
ghost use Rattle.offer_log.specs.Inner.{Walks};

use offer_log::inner::{Progress, Stop, step};
use tallies::inner::none_yet;
use tracker::{Second, Seq, SequenceTracker, TrackedSeq};

// A sequence and a second as a record.
fn pair_of(q: &u64, s: &i64) -> TrackedSeq
    ensures { result ≡ pair_of q.now s.now }
{
    TrackedSeq {
        seq: Seq(*q),
        ts: Second(*s),
    }
}

// The pairs in order, up to the first refusal.
// Stays: beside the walk of `log_records`, since one over any iterator is no plainer: its contract has to say which records the iterator yields, where each of these names its own.
#[tactic(auto, using(offer_log::proofs::Run::started, offer_log::proofs::Run::ended))]
pub fn pairs_good(
    table: SequenceTracker,
    seqs: &mut [u64],
    secs: &mut [i64],
    from_seqs: &[u64],
    from_secs: &[i64],
) -> Result<Progress, Stop>
    requires { (check_of table seqs.old secs.old ≡ gave tt) × (length from_seqs.now ≡ length from_secs.now) }
    ensures { Walks table seqs.old secs.old (records_of from_seqs.now from_secs.now) result seqs.new secs.new }
{
    let mut p = Progress {
        table,
        tally: none_yet(),
    };
    for (q, s) in from_seqs.iter().zip(from_secs) {
        let pair = pair_of(q, s);
        p = step(seqs, secs, p, pair)?;
    }
    Ok(p)
}
