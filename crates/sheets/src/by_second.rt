// The answers of a sheet of questions by second: as by sequence.
ghost use Rattle.std.specs.Prelude.{◌≤◌};
ghost use Rattle.sheets.specs.Inner.{FilledSeq};

use crate::SeqSheet;
use lookup::FindOption;
use questions::inner::pairs::Pairs;

pub(crate) fn answers(pairs: &Pairs, sheet: SeqSheet, find_opt: FindOption) -> SeqSheet
    requires { sheet.used ≤ 16 }
    ensures { FilledSeq pairs.now.seqs.now pairs.now.secs.now find_opt sheet.used sheet result }
{
    let used = sheet.used;
    let mut filled = sheet;
    for i in 0..used {
        let key = filled.keys[i];
        let answer = pairs.seq_answer(key, find_opt);
        filled.answers[i] = answer;
    }
    filled
}
