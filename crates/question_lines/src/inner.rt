// A line taken apart by the grammar, for our own crates: a question, with what follows its LF, or no line of this form.
ghost use Rattle.std.specs.Prelude.{◌≡◌};
ghost use Rattle.question_lines.specs.Grammar.{by_seq, by_time, question};
ghost use Rattle.question_lines.specs.Line.{LineAt, seen};
ghost use Rattle.question_lines.specs.Inner.{as_read};

use crate::Question;
use crate::steps::{ending, number, second};
use text_reader::inner::word;
use tracker::Seq;

// A line that asks by sequence number.
#[tactic(auto, unfolding(crate::specs::Grammar::by_seq))]
fn by_seq(s: &[u8]) -> Option<(Question, &[u8])>
    ensures { as_read result ≡ by_seq s.now }
{
    let s = word(word(s, b"seq")?, b" ")?;
    let (n, s) = number(s, u64::MAX)?;
    let (find_opt, s) = ending(s)?;
    Some((Question::BySeq(Seq(n), find_opt), s))
}

// A line that asks by second.
#[tactic(auto, unfolding(crate::specs::Grammar::by_time))]
fn by_time(s: &[u8]) -> Option<(Question, &[u8])>
    ensures { as_read result ≡ by_time s.now }
{
    let s = word(word(s, b"time")?, b" ")?;
    let (ts, s) = second(s)?;
    let (find_opt, s) = ending(s)?;
    Some((Question::ByTime(ts, find_opt), s))
}

// The whole line.
#[tactic(auto, using(crate::proofs::Tails::question_at), unfolding(crate::specs::Grammar::question))]
pub fn question_of(s: &[u8]) -> Option<(Question, &[u8])>
    ensures { LineAt s.now (question s.now) (seen result) }
{
    by_seq(s).or_else(|| by_time(s))
}
