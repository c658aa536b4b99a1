// Many questions to one table, which is checked once: up to sixteen in a record, any number in slices. A `round` of 0 rounds up, any other down; it is one for all.
ghost use Rattle.skutlaneb.specs.Calls.{SkutFindsTs16, SkutFindsSeq16, SkutFindsTsEach, SkutFindsSeqEach};

use answers::Answer;
use call_answers::{SeqSheetAnswer, TsSheetAnswer};
use sheets::{SeqSheet, TsSheet};
use states::State;

// The seconds for up to sixteen sequences.
#[unsafe(no_mangle)]
pub extern "C" fn skut_find_ts_16(
    state: State,
    seqs: &[u64],
    secs: &[i64],
    sheet: TsSheet,
    round: u32,
) -> TsSheetAnswer
    ensures { SkutFindsTs16 state seqs.now secs.now sheet round result }
{
    let table = states::inner::table_of(state);
    let opt = states::inner::round_of(round);
    TsSheetAnswer::from(sheets::find_ts_16(table, seqs, secs, sheet, opt))
}

// The sequences for up to sixteen seconds.
#[unsafe(no_mangle)]
pub extern "C" fn skut_find_seq_16(
    state: State,
    seqs: &[u64],
    secs: &[i64],
    sheet: SeqSheet,
    round: u32,
) -> SeqSheetAnswer
    ensures { SkutFindsSeq16 state seqs.now secs.now sheet round result }
{
    let table = states::inner::table_of(state);
    let opt = states::inner::round_of(round);
    SeqSheetAnswer::from(sheets::find_seq_16(table, seqs, secs, sheet, opt))
}

// The second for each sequence of a list: a mark of 1 beside it, or both 0 where nothing is answered.
#[unsafe(no_mangle)]
pub extern "C" fn skut_find_ts_each(
    state: State,
    seqs: &[u64],
    secs: &[i64],
    keys: &[u64],
    answers: &mut [i64],
    found: &mut [u8],
    round: u32,
) -> Answer
    ensures { SkutFindsTsEach state seqs.now secs.now keys.now round
        answers.old found.old result answers.new found.new }
{
    let table = states::inner::table_of(state);
    let opt = states::inner::round_of(round);
    let asked = question_lists::find_ts_each(table, seqs, secs, keys, answers, found, opt);
    Answer::from(asked)
}

// The sequence for each second of a list.
#[unsafe(no_mangle)]
pub extern "C" fn skut_find_seq_each(
    state: State,
    seqs: &[u64],
    secs: &[i64],
    keys: &[i64],
    answers: &mut [u64],
    found: &mut [u8],
    round: u32,
) -> Answer
    ensures { SkutFindsSeqEach state seqs.now secs.now keys.now round
        answers.old found.old result answers.new found.new }
{
    let table = states::inner::table_of(state);
    let opt = states::inner::round_of(round);
    let asked = question_lists::find_seq_each(table, seqs, secs, keys, answers, found, opt);
    Answer::from(asked)
}
