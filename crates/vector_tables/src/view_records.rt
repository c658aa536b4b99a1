// Records that only look at the standing table: S, H, V, F and K. Each answers whether the table agrees.
use lookup::FindOption;
use questions::{SeqAnswer, TsAnswer};
use sheets::{SeqSheet, TsSheet};
use tracker::{Second, Seq, SequenceTracker};
use vector_bodies::digest::image_so;
use vector_bodies::lists::values_so;
use vector_bytes::{Body, Number};
use vector_lists::first;

// Bytes that hold the image of a full table.
// Stays: there is no heap, so the image stands in an array of the most that it may have.
const ROOM: usize = 73760;

// The count, the last recorded second and the pairs.
pub fn shown_so(mut body: Body<'_>, table: SequenceTracker, seqs: &[u64], secs: &[i64]) -> bool {
    let n = usize::from(body.read::<u16>());
    let recorded: u8 = body.read();
    let second: i64 = body.read();
    let last_so = match table.last_recorded_ts {
        None => recorded == 0,
        Some(last) => (recorded == 1) & (last.0 == second),
    };
    (table.count == n) && (last_so & values_so(body, first(seqs, n), first(secs, n)))
}

// The image that saving writes, empty if it refuses.
pub fn saved_so(body: Body<'_>, table: SequenceTracker, seqs: &[u64], secs: &[i64]) -> bool {
    let mut out = [0u8; ROOM];
    let n = saving::save(table, seqs, secs, &mut out).unwrap_or(0);
    image_so(body, first(&out, n))
}

fn way_of(number: u8) -> FindOption {
    if number == 0 {
        FindOption::RoundUp
    } else {
        FindOption::RoundDown
    }
}

// The partner that a body tells, if any. It goes on with n partners: those of all keys that equal the one asked for, from the lowest position to the
// highest, or that of the key beside it. RoundUp answers the first of them, RoundDown the last.
fn partner<T: Number>(mut body: Body<'_>, way: FindOption) -> Option<T> {
    let n: u8 = body.read();
    let others = n.checked_sub(1)?;
    if let FindOption::RoundDown = way {
        body.part(8 * usize::from(others));
    }
    Some(body.read())
}

// Whether an answer to one of many questions is so: a mark of 1 and the partner, or 0 and 0 where there is none.
fn marked_so<T: Copy + PartialEq + Default>(mark: u64, answer: T, want: Option<T>) -> bool {
    match want {
        Some(partner) => (mark == 1) & (answer == partner),
        None => (mark == 0) & (answer == T::default()),
    }
}

// Whether the second for a sequence is so: asked alone, with its reason, on a sheet and in a list. The sheet has the question in all its places, and its
// last answer is taken.
pub fn second_so(mut body: Body<'_>, table: SequenceTracker, seqs: &[u64], secs: &[i64]) -> bool {
    let key: u64 = body.read();
    let way = way_of(body.read());
    let want: Option<i64> = partner(body, way);
    let alone = lookup::find_ts(table, seqs, secs, Seq(key), way);
    let why = explaining::why_ts(table, seqs, secs, Seq(key), way);
    let none = TsAnswer {
        found: 7,
        second: Second(7),
    };
    let sheet = TsSheet {
        keys: [Seq(key); 16],
        answers: [none; 16],
        used: 16,
    };
    let back = sheets::find_ts_16(table, seqs, secs, sheet, way);
    let last = back.sheet.answers[15];
    let mut answers = [7i64; 1];
    let mut found = [7u8; 1];
    let listed = question_lists::find_ts_each(
        table,
        seqs,
        secs,
        &[key],
        &mut answers,
        &mut found,
        way,
    );
    alone.is_ok_and(|second| second.map(|s| s.0) == want)
        & why.is_ok_and(|why| why.answer.map(|s| s.0) == want)
        & marked_so(last.found, last.second.0, want)
        & listed.is_ok()
        & marked_so(found[0].into(), answers[0], want)
}

// The same of the sequence for a second.
// Stays: the calls that are asked here are two of each kind, as C has them (find_ts, find_seq, ..); a trait over the two keys would name each of them in an impl, too.
pub fn seq_so(mut body: Body<'_>, table: SequenceTracker, seqs: &[u64], secs: &[i64]) -> bool {
    let key: i64 = body.read();
    let way = way_of(body.read());
    let want: Option<u64> = partner(body, way);
    let alone = lookup::find_seq(table, seqs, secs, Second(key), way);
    let why = explaining::why_seq(table, seqs, secs, Second(key), way);
    let none = SeqAnswer {
        found: 7,
        seq: Seq(7),
    };
    let sheet = SeqSheet {
        keys: [Second(key); 16],
        answers: [none; 16],
        used: 16,
    };
    let back = sheets::find_seq_16(table, seqs, secs, sheet, way);
    let last = back.sheet.answers[15];
    let mut answers = [7u64; 1];
    let mut found = [7u8; 1];
    let listed = question_lists::find_seq_each(
        table,
        seqs,
        secs,
        &[key],
        &mut answers,
        &mut found,
        way,
    );
    alone.is_ok_and(|seq| seq.map(|s| s.0) == want)
        & why.is_ok_and(|why| why.answer.map(|s| s.0) == want)
        & marked_so(last.found, last.seq.0, want)
        & listed.is_ok()
        & marked_so(found[0].into(), answers[0], want)
}
