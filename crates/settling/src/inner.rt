// Pairs that were read, judged by rules 11 to 13, become a table in the lent arrays.
ghost use Rattle.std.specs.Prelude.{◌≡◌, ◌≤◌, length};
ghost use Rattle.settling.specs.Inner.{Settles};

use tracker::{Refusal, Second, SequenceTracker, inner};

// What restore does once pairs are read into arrays of its own. They are judged first, and if they are refused none is stored.
pub fn settle(
    seqs: &mut [u64],
    secs: &mut [i64],
    read_seqs: &[u64],
    read_secs: &[i64],
    interval_secs: u64,
) -> Result<SequenceTracker, Refusal>
    requires { (length read_seqs.now ≤ 8192) × (length read_secs.now ≡ length read_seqs.now) × (length read_seqs.now ≤ length seqs.old) × (length read_seqs.now ≤ length secs.old) }
    ensures { Settles interval_secs read_seqs.now read_secs.now seqs.old secs.old result seqs.new secs.new }
{
    let n = read_seqs.len();
    inner::pairs(read_seqs, read_secs, n)?;
    seqs[..n].copy_from_slice(read_seqs);
    secs[..n].copy_from_slice(read_secs);
    let last = read_secs.last().map(|s| Second(*s));
    Ok(fresh::inner::fresh(fresh::DEFAULT_CAPACITY, interval_secs, n, last))
}
