// For our own crates: what a call on many questions tells.
ghost use Rattle.std.specs.Prelude.{◌≡◌, cond};
ghost use Rattle.told.specs.Told.{refused};
ghost use Rattle.tracker.specs.Table.{check_of};
ghost use Rattle.questions.specs.Asked.{told, told_asked};

use crate::Refusal;
use tracker::{SequenceTracker, check};

pub mod pairs; // pairs.rt: the kept pairs of a good table, which answer

// What such a call tells: its own refusal where there is one, else what the one check of the table says, for all its questions.
pub fn judged(
    table: SequenceTracker,
    seqs: &[u64],
    secs: &[i64],
    own: bool,
    why: Refusal,
) -> Result<(), Refusal>
    ensures { told_asked result ≡ cond own (refused (told why)) (check_of table seqs.now secs.now) }
{
    if own {
        return Err(why);
    }
    check(table, seqs, secs)?;
    Ok(())
}
