// A list of questions in a lent slice, and its answers in two more. The table is checked once.
#![tactic(auto)]

ghost use Rattle.std.specs.Prelude.{◌≡◌};
ghost use Rattle.question_lists.specs.Each as rules;

use lookup::FindOption;
use questions::Refusal;
use questions::inner::judged;
use questions::inner::pairs::Pairs;
use tracker::SequenceTracker;

mod by_second; // by_second.rt: the answers to questions by second
mod by_seq; // by_seq.rt: the answers to questions by sequence

// Whether the three slices differ in length.
fn differ(keys: usize, answers: usize, found: usize) -> bool
    ensures { result ≡ rules.differ keys answers found }
{
    keys != answers || keys != found
}

// The second for each sequence number: `found` is 1 beside it, or both are 0 where nothing is answered.
pub fn find_ts_each(
    table: SequenceTracker,
    seqs: &[u64],
    secs: &[i64],
    keys: &[u64],
    answers: &mut [i64],
    found: &mut [u8],
    find_opt: FindOption,
) -> Result<(), Refusal>
    ensures { rules.FindsTsEach table seqs.now secs.now keys.now find_opt
        answers.old found.old result answers.new found.new }
{
    let m = keys.len();
    let differ = differ(m, answers.len(), found.len());
    judged(table, seqs, secs, differ, Refusal::LengthsDiffer)?;
    let pairs = Pairs::of(table, seqs, secs);
    by_seq::answers(&pairs, keys, answers, found, find_opt);
    Ok(())
}

// The sequence number for each second.
pub fn find_seq_each(
    table: SequenceTracker,
    seqs: &[u64],
    secs: &[i64],
    keys: &[i64],
    answers: &mut [u64],
    found: &mut [u8],
    find_opt: FindOption,
) -> Result<(), Refusal>
    ensures { rules.FindsSeqEach table seqs.now secs.now keys.now find_opt
        answers.old found.old result answers.new found.new }
{
    let m = keys.len();
    let differ = differ(m, answers.len(), found.len());
    judged(table, seqs, secs, differ, Refusal::LengthsDiffer)?;
    let pairs = Pairs::of(table, seqs, secs);
    by_second::answers(&pairs, keys, answers, found, find_opt);
    Ok(())
}
