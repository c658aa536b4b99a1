// The answers of a list of questions by second: as by sequence.
ghost use Rattle.std.specs.Prelude.{length};
ghost use Rattle.question_lists.specs.Inner.{FilledSeq, AsLong};

use lookup::FindOption;
use questions::inner::pairs::Pairs;
use tracker::Second;

pub(crate) fn answers(
    pairs: &Pairs,
    keys: &[i64],
    answers: &mut [u64],
    found: &mut [u8],
    find_opt: FindOption,
)
    requires { AsLong keys.now answers.old found.old }
    ensures { FilledSeq pairs.now.seqs.now pairs.now.secs.now find_opt keys.now (length keys.now)
        answers.old found.old answers.new found.new }
{
    let m = keys.len();
    for i in 0..m {
        let key = keys[i];
        let answer = pairs.seq_answer(Second(key), find_opt);
        let seq = answer.seq;
        let value = seq.0;
        answers[i] = value;
        found[i] = answer.found as u8;
    }
}
