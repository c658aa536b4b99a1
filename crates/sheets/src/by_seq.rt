// The answers of a sheet of questions by sequence, in a table that is checked.
ghost use Rattle.std.specs.Prelude.{◌≤◌};
ghost use Rattle.sheets.specs.Inner.{FilledTs};

use crate::TsSheet;
use lookup::FindOption;
use questions::inner::pairs::Pairs;

// A `used` above 16 would read past the keys, so that the caller has refused it.
pub(crate) fn answers(pairs: &Pairs, sheet: TsSheet, find_opt: FindOption) -> TsSheet
    requires { sheet.used ≤ 16 }
    ensures { FilledTs pairs.now.seqs.now pairs.now.secs.now find_opt sheet.used sheet result }
{
    let used = sheet.used;
    let mut filled = sheet;
    for i in 0..used {
        let key = filled.keys[i];
        let answer = pairs.ts_answer(key, find_opt);
        filled.answers[i] = answer;
    }
    filled
}
