// Why a lookup answers as it does: the reason, with the positions that it names, beside the lookup's own answer.
#![tactic(auto)]

ghost use Rattle.std.specs.Prelude.{◌≡◌};
ghost use Rattle.explaining.specs.Why.{why_ts, why_seq, told_why_ts, told_why_seq};

use lookup::FindOption;
use tracker::{Refusal, Second, Seq, SequenceTracker, check};

pub mod inner; // inner.rt: the reason in a table that is checked

// Why a question is answered as it is. A position is one among the kept pairs.
#[derive(Clone, Copy)]
pub enum Reason {
    // a key equals the one asked for: the position that answers
    Exact(usize),
    // none equals, and the first greater key answers: the position below it, where there is one, and its own
    RoundedUp(Option<usize>, usize),
    // none equals, and the last smaller key answers: its own position, and the one above it, where there is one
    RoundedDown(usize, Option<usize>),
    // rounding down, each key is greater
    BeforeFirst,
    // rounding up, each key is smaller
    AfterLast,
    // no pair is kept
    Empty,
}

// A reason, and the answer under it.
#[derive(Clone, Copy)]
pub struct Why<A> {
    pub reason: Reason,
    pub answer: Option<A>,
}

// The second for a sequence number, and why that one.
pub fn why_ts(
    table: SequenceTracker,
    seqs: &[u64],
    secs: &[i64],
    seq: Seq,
    find_opt: FindOption,
) -> Result<Why<Second>, Refusal>
    ensures { told_why_ts result ≡ why_ts table seqs.now secs.now seq find_opt }
{
    check(table, seqs, secs)?;
    let n = table.count;
    let reason = inner::reason(seqs, n, seq.0, find_opt);
    let answer = inner::answering(reason).map(|at| Second(secs[at]));
    Ok(Why { reason, answer })
}

// The sequence number for a second, and why that one. Any second may be asked for.
pub fn why_seq(
    table: SequenceTracker,
    seqs: &[u64],
    secs: &[i64],
    ts: Second,
    find_opt: FindOption,
) -> Result<Why<Seq>, Refusal>
    ensures { told_why_seq result ≡ why_seq table seqs.now secs.now ts find_opt }
{
    check(table, seqs, secs)?;
    let n = table.count;
    let reason = inner::reason(secs, n, ts.0, find_opt);
    let answer = inner::answering(reason).map(|at| Seq(seqs[at]));
    Ok(Why { reason, answer })
}
