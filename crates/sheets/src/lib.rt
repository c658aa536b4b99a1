// One sheet, up to sixteen questions: a record by value with the questions and their answers. The table is checked once.
#![tactic(auto)]

ghost use Rattle.sheets.specs.Sheet.{FindsTs16, FindsSeq16};

use lookup::FindOption;
use questions::inner::judged;
use questions::inner::pairs::Pairs;
use questions::{Refusal, SeqAnswer, TsAnswer};
use tracker::{Second, Seq, SequenceTracker};

mod by_second; // by_second.rt: the answers to questions by second
mod by_seq; // by_seq.rt: the answers to questions by sequence

// A sheet has so many places.
const PLACES: usize = 16;

// Questions by sequence. Of the sixteen places the first `used` are questions; the answers of the others are nobody's.
#[repr(C)]
#[derive(Clone, Copy)]
pub struct TsSheet {
    pub keys: [Seq; 16],
    pub answers: [TsAnswer; 16],
    pub used: usize,
}

// Questions by second.
#[repr(C)]
#[derive(Clone, Copy)]
pub struct SeqSheet {
    pub keys: [Second; 16],
    pub answers: [SeqAnswer; 16],
    pub used: usize,
}

// A sheet as it comes back: with its answers, or, refused, as it went in.
// Stays: both structs, since `find_ts_16` and `find_seq_16` promise of the sheet that it comes back also where they refuse, which a `Result` has no place for.
#[derive(Clone, Copy)]
pub struct TsSheetBack {
    pub asked: Result<(), Refusal>,
    pub sheet: TsSheet,
}

#[derive(Clone, Copy)]
pub struct SeqSheetBack {
    pub asked: Result<(), Refusal>,
    pub sheet: SeqSheet,
}

// The seconds for up to sixteen sequence numbers.
pub fn find_ts_16(
    table: SequenceTracker,
    seqs: &[u64],
    secs: &[i64],
    sheet: TsSheet,
    find_opt: FindOption,
) -> TsSheetBack
    ensures { FindsTs16 table seqs.now secs.now sheet find_opt result }
{
    let asked = judged(table, seqs, secs, sheet.used > PLACES, Refusal::TooMany);
    let back = match asked {
        Ok(()) => by_seq::answers(&Pairs::of(table, seqs, secs), sheet, find_opt),
        Err(_) => sheet,
    };
    TsSheetBack { asked, sheet: back }
}

// The sequence numbers for up to sixteen seconds.
pub fn find_seq_16(
    table: SequenceTracker,
    seqs: &[u64],
    secs: &[i64],
    sheet: SeqSheet,
    find_opt: FindOption,
) -> SeqSheetBack
    ensures { FindsSeq16 table seqs.now secs.now sheet find_opt result }
{
    let asked = judged(table, seqs, secs, sheet.used > PLACES, Refusal::TooMany);
    let back = match asked {
        Ok(()) => by_second::answers(&Pairs::of(table, seqs, secs), sheet, find_opt),
        Err(_) => sheet,
    };
    SeqSheetBack { asked, sheet: back }
}
