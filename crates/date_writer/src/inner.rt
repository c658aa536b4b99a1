// The text of a second, by value and put into a lent buffer.
ghost use Rattle.std.specs.Prelude.{◌≡◌, ◌+◌, ◌<◌, ◌≤◌, length};
ghost use Rattle.text.specs.Inner.{Put};
ghost use Rattle.date_writer.specs.DateText.{two, text_of};
ghost use Rattle.date_writer.specs.Inner.{Digits, date_text};

use calendar::inner::date_of;
use calendar::{Date, Inside};
use text::inner::put_bytes;

// How many bytes a date has.
pub const DATE_BYTES: usize = 20;

// A number in two digits.
fn two(n: u64) -> [u8; 2]
    requires { n < 100 }
    ensures { result ≡ two n }
{
    [b'0' + (n / 10) as u8, b'0' + (n % 10) as u8]
}

// Each digit by its place: a date has no number of other than two or four digits.
#[tactic(auto, unfolding(crate::specs::DateText::text_of))]
fn text_of(d: Date) -> [u8; DATE_BYTES]
    requires { Digits d }
    ensures { result ≡ text_of d }
{
    let [y0, y1] = two(d.year / 100);
    let [y2, y3] = two(d.year % 100);
    let [m0, m1] = two(d.month);
    let [d0, d1] = two(d.day);
    let [h0, h1] = two(d.hour);
    let [t0, t1] = two(d.minute);
    let [s0, s1] = two(d.second);
    [
        y0, y1, y2, y3, b'-', m0, m1, b'-', d0, d1, b'T', h0, h1, b':', t0, t1, b':', s0, s1, b'Z',
    ]
}

// The text of a second of the domain.
#[tactic(auto, using(crate::proofs::Digits::digits_of))]
fn date_text(s: Inside) -> [u8; DATE_BYTES]
    ensures { result ≡ date_text s.second }
{
    text_of(date_of(s))
}

// Puts that text into `out` from `at` on, and answers the place after it.
pub fn put_date(out: &mut [u8], at: usize, s: Inside) -> usize
    requires { at + 20 ≤ length out.old }
    ensures { Put out.old at (date_text s.second) out.new result }
{
    put_bytes(out, at, &date_text(s))
}
