// What the crates above use, on arguments that they have judged before.
ghost use Rattle.std.specs.Prelude.{◌≡◌, ◌≤◌, length};
ghost use Rattle.tracker.specs.Refusal.{told_check};
ghost use Rattle.tracker.specs.Table.{pairs_of};

use crate::Refusal;
use order::inner::{first_drop, sec_outside};

// The first n pairs: the order of the sequences, that of the seconds, then the domain.
pub fn pairs(seqs: &[u64], secs: &[i64], n: usize) -> Result<(), Refusal>
    requires { (n ≤ length seqs.now) × (n ≤ length secs.now) }
    ensures { told_check result ≡ pairs_of seqs.now secs.now n }
{
    let secs = &secs[..n];
    if let Some(i) = first_drop(&seqs[..n]) {
        return Err(Refusal::SequenceDrops(i));
    }
    if let Some(i) = first_drop(secs) {
        return Err(Refusal::SecondDrops(i));
    }
    if let Some(i) = sec_outside(secs) {
        return Err(Refusal::SecondOutside(i));
    }
    Ok(())
}
