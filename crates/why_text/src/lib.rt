// The text that the program `why` prints for the bytes that it reads: a question's line and an image.
#![tactic(auto)]

ghost use Rattle.std.specs.Prelude.{◌≡◌};
ghost use Rattle.text.specs.Text.{Stands};
ghost use Rattle.text.specs.Inner.{Put};
ghost use Rattle.report.specs.Listing.{number_of};
ghost use Rattle.restoring.specs.Restore.{told_refusal};
ghost use Rattle.why_text.specs.Text.{asked_text, image_text, why_text};

mod answer; // answer.rt: an answer as text
mod lines; // lines.rt: the line of an answer

use lines::put_why;
use question_lines::Question;
use report::inner::put_refused;
use restoring::Refusal;
use tracker::SequenceTracker;

// The most bytes that are read as a question's line and an image.
pub const MOST_INPUT: usize = 65536;

// Room for every text: a reason's word and three numbers with spaces, at most 77 in all.
pub const TEXT_ROOM: usize = 128;

// The question asked of a table.
fn put_asked(
    out: &mut [u8; TEXT_ROOM],
    q: Question,
    table: SequenceTracker,
    seqs: &[u64],
    secs: &[i64],
) -> usize
    ensures { Put out.old 0 (asked_text q table seqs.now secs.now) out.new result }
{
    match q {
        Question::BySeq(seq, find_opt) => {
            put_why(out, explaining::why_ts(table, seqs, secs, seq, find_opt))
        }
        Question::ByTime(ts, find_opt) => {
            put_why(out, explaining::why_seq(table, seqs, secs, ts, find_opt))
        }
    }
}

// The number of a restore's refusal.
fn number(why: Refusal) -> u64
    ensures { result ≡ number_of (told_refusal why) }
{
    match why {
        Refusal::Table(why) => why.number(),
        Refusal::Decoder(why) => why.number(),
    }
}

// The question asked of the table that an image holds.
fn put_of_image(out: &mut [u8; TEXT_ROOM], image: &[u8], q: Question) -> usize
    ensures { Put out.old 0 (image_text q image.now) out.new result }
{
    let mut seqs = [0u64; 8192];
    let mut secs = [0i64; 8192];
    match restoring::restore(image, &mut seqs, &mut secs) {
        Ok(table) => put_asked(out, q, table, &seqs, &secs),
        Err(why) => put_refused(out, number(why)),
    }
}

// Puts the text for the bytes of `input` at the start of `out`, and answers its length.
pub fn why(input: &[u8], out: &mut [u8; TEXT_ROOM]) -> usize
    ensures { Stands (why_text input.now) out.old result out.new }
{
    if input.len() > MOST_INPUT {
        return put_refused(out, 22);
    }
    match question_lines::inner::question_of(input) {
        Some((q, image)) => put_of_image(out, image, q),
        None => put_refused(out, 36),
    }
}
