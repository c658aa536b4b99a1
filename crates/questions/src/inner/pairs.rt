// The kept pairs of a good table, as slices, and the answer to one question among them.
ghost use Rattle.std.specs.Prelude.{◌≡◌, take};
ghost use Rattle.told.specs.Told.{gave};
ghost use Rattle.tracker.specs.Table.{check_of};
ghost use Rattle.questions.specs.Stands.{ts_stands, seq_stands};
ghost use Rattle.questions.specs.Inner.{GoodPairs, ts_partner, seq_partner};

use crate::{SeqAnswer, TsAnswer};
use lookup::FindOption;
use tracker::{Second, Seq, SequenceTracker};

// A second stands beside each sequence, and both are in order.
#[derive(Drop)]
pub struct Pairs<'a> {
    pub seqs: &'a [u64],
    pub secs: &'a [i64],
    ghost good: { GoodPairs seqs.now secs.now },
}

impl<'a> Pairs<'a> {
    // Those that a table keeps, which has been checked.
    pub fn of(table: SequenceTracker, seqs: &'a [u64], secs: &'a [i64]) -> Pairs<'a>
        requires { check_of table seqs.now secs.now ≡ gave tt }
        ensures { (result.seqs.now ≡ take table.count seqs.now) × (result.secs.now ≡ take table.count secs.now) }
    {
        let n = table.count;
        Pairs {
            seqs: &seqs[..n],
            secs: &secs[..n],
        }
    }

    // Stays: this and `seq_answer`, and above them `by_seq` and `by_second` of `sheets` and of `question_lists`, as two functions each: their answers are two
    // structs that C has as they stand (#[repr(C)]), and each asks one array and tells of the other, so that a trait over both would name each of them again, in an impl.
    // The answer to one question by sequence.
    pub fn ts_answer(&self, seq: Seq, find_opt: FindOption) -> TsAnswer
        ensures { result ≡ ts_stands (ts_partner self.now.seqs.now self.now.secs.now seq find_opt) }
    {
        match lookup::inner::place(self.seqs, self.seqs.len(), seq.0, find_opt) {
            Some(at) => TsAnswer {
                found: 1,
                second: Second(self.secs[at]),
            },
            None => TsAnswer {
                found: 0,
                second: Second(0),
            },
        }
    }

    // The answer to one question by second.
    pub fn seq_answer(&self, ts: Second, find_opt: FindOption) -> SeqAnswer
        ensures { result ≡ seq_stands (seq_partner self.now.seqs.now self.now.secs.now ts find_opt) }
    {
        match lookup::inner::place(self.secs, self.seqs.len(), ts.0, find_opt) {
            Some(at) => SeqAnswer {
                found: 1,
                seq: Seq(self.seqs[at]),
            },
            None => SeqAnswer {
                found: 0,
                seq: Seq(0),
            },
        }
    }
}
