// The line of an answer and its reason, put into a lent buffer.
ghost use Rattle.std.specs.Prelude.{◌+◌, ◌≤◌, ◌++◌, length};
ghost use Rattle.text.specs.Ascii.{ascii};
ghost use Rattle.text.specs.Inner.{Put};
ghost use Rattle.text.specs.Text.{decimal};
ghost use Rattle.explaining.specs.Why.{told_why};
ghost use Rattle.why_text.specs.Words.{neighbour_text, reason_text, answer_text, why_line};
ghost use Rattle.lookup.specs.Found.{partner_of};
ghost use Rattle.why_text.specs.Text.{told_text};

use crate::TEXT_ROOM;
use crate::answer::Answer;
use explaining::{Reason, Why};
use report::inner::put_refused;
use text::inner::{put_byte, put_bytes, put_decimal};
use tracker::Refusal;

// A number of 21 bytes at most, or `none`.
fn put_answer<A: Answer>(out: &mut [u8], at: usize, answer: Option<A>) -> usize
    requires { at + 21 ≤ length out.old }
    ensures { Put out.old at (answer_text A.number (partner_of answer)) out.new result }
{
    match answer {
        Some(a) => a.put(out, at),
        None => put_bytes(out, at, b"none"),
    }
}

// 26 bytes at most.
fn put_exact(out: &mut [u8; TEXT_ROOM], p: usize) -> usize
    ensures { Put out.old 0 (ascii "exact " ++ decimal p) out.new result }
{
    let a = put_bytes(out, 0, b"exact ");
    put_decimal(out, a, p as u64)
}

// 52 bytes at most.
fn put_rounded_up(out: &mut [u8; TEXT_ROOM], below: Option<usize>, above: usize) -> usize
    ensures { Put out.old 0 (ascii "rounded-up " ++ neighbour_text below ++ ascii " " ++ decimal above) out.new result }
{
    let a = put_bytes(out, 0, b"rounded-up ");
    let b = put_answer(out, a, below);
    let c = put_byte(out, b, b' ');
    put_decimal(out, c, above as u64)
}

// 54 bytes at most.
fn put_rounded_down(out: &mut [u8; TEXT_ROOM], below: usize, above: Option<usize>) -> usize
    ensures { Put out.old 0 (ascii "rounded-down " ++ decimal below ++ ascii " " ++ neighbour_text above) out.new result }
{
    let a = put_bytes(out, 0, b"rounded-down ");
    let b = put_decimal(out, a, below as u64);
    let c = put_byte(out, b, b' ');
    put_answer(out, c, above)
}

fn put_reason(out: &mut [u8; TEXT_ROOM], reason: Reason) -> usize
    ensures { Put out.old 0 (reason_text reason) out.new result }
{
    match reason {
        Reason::Exact(p) => put_exact(out, p),
        Reason::RoundedUp(below, above) => put_rounded_up(out, below, above),
        Reason::RoundedDown(below, above) => put_rounded_down(out, below, above),
        Reason::BeforeFirst => put_bytes(out, 0, b"before-first"),
        Reason::AfterLast => put_bytes(out, 0, b"after-last"),
        Reason::Empty => put_bytes(out, 0, b"empty"),
    }
}

// The line of an answer under its reason.
fn put_line<A: Answer>(out: &mut [u8; TEXT_ROOM], why: Why<A>) -> usize
    ensures { Put out.old 0 (why_line A.number (record { reason = why.reason; answer = partner_of why.answer })) out.new result }
{
    let a = put_reason(out, why.reason);
    let b = put_byte(out, a, b' ');
    let c = put_answer(out, b, why.answer);
    put_byte(out, c, b'\n')
}

pub fn put_why<A: Answer>(out: &mut [u8; TEXT_ROOM], why: Result<Why<A>, Refusal>) -> usize
    ensures { Put out.old 0 (told_text A.number (told_why why)) out.new result }
{
    match why {
        Ok(why) => put_line(out, why),
        Err(refusal) => put_refused(out, refusal.number()),
    }
}
