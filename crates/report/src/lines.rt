// The lines of a listing, put into a lent buffer.
ghost use Rattle.std.specs.Prelude.{◌+◌, ◌*◌, ◌≤◌, ◌≡◌, false, length};
ghost use Rattle.text.specs.Inner.{Put};
ghost use Rattle.report.specs.Lines.{line, lines, entries_text, refused_text};
ghost use Rattle.report.specs.Inner.{NoneLacks, pairs_text};

use crate::third::Third;
use text::inner::{put_byte, put_decimal, put_word_line};

// The line of one pair has 64 bytes at most: 20 for the position, 20 for the sequence, 21 for the
// third field, two spaces and the end of the line.
fn put_line<T: Third>(out: &mut [u8], at: usize, i: usize, seq: u64, sec: i64) -> usize
    requires has { T.lacks sec ≡ false }
    requires room { at + 64 ≤ length out.old }
    ensures { Put out.old at (line T.text i seq sec) out.new result }
{
    let a = put_decimal(out, at, i as u64);
    let b = put_byte(out, a, b' ');
    let c = put_decimal(out, b, seq);
    let d = put_byte(out, c, b' ');
    let e = T::put(out, d, sec);
    put_byte(out, e, b'\n')
}

// Stays: tried, and the proof did not close. Over a zip of both lists the check does not find at which position a pair stands, so the sequence is read by
// its position.
fn put_lines<T: Third>(out: &mut [u8], at: usize, seqs: &[u64], secs: &[i64]) -> usize
    requires pairs { length seqs.now ≡ length secs.now }
    requires has { NoneLacks T.lacks secs.now }
    requires room { at + length secs.now * 64 ≤ length out.old }
    ensures { Put out.old at (lines T.text seqs.now secs.now (length secs.now)) out.new result }
{
    let mut p = at;
    for (i, sec) in secs.iter().enumerate() {
        p = put_line::<T>(out, p, i, seqs[i], *sec);
    }
    p
}

// The text of the pairs. 27 is found before a byte is put.
pub fn put_pairs<T: Third>(out: &mut [u8], seqs: &[u64], secs: &[i64]) -> usize
    requires pairs { length seqs.now ≡ length secs.now }
    requires room { length secs.now * 64 + 64 ≤ length out.old }
    ensures { Put out.old 0 (pairs_text T.text T.some_lacks seqs.now secs.now) out.new result }
{
    if T::some_lacks(secs) {
        return put_refused(out, 27);
    }
    let p = put_word_line(out, 0, b"entries ", secs.len() as u64);
    put_lines::<T>(out, p, seqs, secs)
}

// The text of a refusal.
#[tactic(auto, unfolding(crate::specs::Lines::refused_text))]
pub fn put_refused(out: &mut [u8], number: u64) -> usize
    requires { 64 ≤ length out.old }
    ensures { Put out.old 0 (refused_text number) out.new result }
{
    put_word_line(out, 0, b"refused ", number)
}
