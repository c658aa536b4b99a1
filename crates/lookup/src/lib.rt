// Lookups in a table: the second of a sequence number, and the sequence number of a second.
#![tactic(auto)]

ghost use Rattle.std.specs.Prelude.{◌≡◌};
ghost use Rattle.lookup.specs.Find.{find_ts, find_seq};
ghost use Rattle.lookup.specs.Found.{told_ts, told_seq};

use tracker::{Refusal, Second, Seq, SequenceTracker, check};

pub mod inner;

// Which of the kept keys answers: with RoundUp the first that is not below the one asked for, with RoundDown the last that is not above it.
#[derive(Clone, Copy)]
pub enum FindOption {
    RoundUp,
    RoundDown,
}

// Stays: two calls of one shape, since C has both (skut_find_ts, skut_find_seq); each goes by the one `place`.
// The second for a sequence number.
pub fn find_ts(
    table: SequenceTracker,
    seqs: &[u64],
    secs: &[i64],
    seq: Seq,
    find_opt: FindOption,
) -> Result<Option<Second>, Refusal>
    ensures { told_ts result ≡ find_ts table seqs.now secs.now seq find_opt }
{
    check(table, seqs, secs)?;
    let n = table.count;
    match inner::place(seqs, n, seq.0, find_opt) {
        Some(at) => Ok(Some(Second(secs[at]))),
        None => Ok(None),
    }
}

// The sequence number for a second. Any second may be asked for: the domain binds only those that are kept.
pub fn find_seq(
    table: SequenceTracker,
    seqs: &[u64],
    secs: &[i64],
    ts: Second,
    find_opt: FindOption,
) -> Result<Option<Seq>, Refusal>
    ensures { told_seq result ≡ find_seq table seqs.now secs.now ts find_opt }
{
    check(table, seqs, secs)?;
    let n = table.count;
    match inner::place(secs, n, ts.0, find_opt) {
        Some(at) => Ok(Some(Seq(seqs[at]))),
        None => Ok(None),
    }
}
