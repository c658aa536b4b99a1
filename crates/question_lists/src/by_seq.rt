// The answers of a list of questions by sequence, in a table that is checked.
ghost use Rattle.std.specs.Prelude.{length};
ghost use Rattle.question_lists.specs.Inner.{FilledTs, AsLong};

use lookup::FindOption;
use questions::inner::pairs::Pairs;
use tracker::Seq;

pub(crate) fn answers(
    pairs: &Pairs,
    keys: &[u64],
    answers: &mut [i64],
    found: &mut [u8],
    find_opt: FindOption,
)
    requires { AsLong keys.now answers.old found.old }
    ensures { FilledTs pairs.now.seqs.now pairs.now.secs.now find_opt keys.now (length keys.now)
        answers.old found.old answers.new found.new }
{
    let m = keys.len();
    for i in 0..m {
        let key = keys[i];
        let answer = pairs.ts_answer(Seq(key), find_opt);
        let second = answer.second;
        let value = second.0;
        answers[i] = value;
        found[i] = answer.found as u8;
    }
}
