// What stands in the third field of a listing's lines: the second, or its date.
ghost use Rattle.std.specs.Prelude.{◌+◌, ◌≤◌, ◌≡◌, ℕ, ℤ, Bool, false, List, length};
ghost use Rattle.limits.specs.Domain.{outside};
ghost use Rattle.text.specs.Inner.{Put};
ghost use Rattle.text.specs.Text.{signed_decimal};
ghost use Rattle.text.proofs.Numbers.{signed-length};
ghost use Rattle.date_writer.specs.Inner.{date_text};
ghost use Rattle.report.specs.Dated.{some_outside};
ghost use Rattle.report.specs.Inner.{NoneLacks};
ghost use Rattle.report.specs.Thirds.{date-short, all-dated, none-lacking};

use calendar::Inside;
use date_writer::inner::put_date;
use order::inner::first_outside;
use text::inner::put_signed;

pub trait Third {
    // what is printed for a second, 21 bytes at most, and whether it has no such text
    ghost text: { ℤ → List ℕ };

    ghost lacks: { ℤ → Bool };

    // whether one of the seconds has none
    ghost some_lacks: { List ℤ → Bool };

    fn some_lacks(secs: &[i64]) -> bool
        ensures { result ≡ some_lacks secs.now };

    fn put(out: &mut [u8], at: usize, sec: i64) -> usize
        requires has { lacks sec ≡ false }
        requires room { at + 21 ≤ length out.old }
        ensures { Put out.old at (text sec) out.new result };

    ghost short: { (sec : ℤ) → length (text sec) ≤ 21 };

    ghost none_lacks: { (secs : List ℤ) → some_lacks secs ≡ false → NoneLacks lacks secs };
}

pub struct Seconds;

impl Third for Seconds {
    ghost text = { signed_decimal };

    ghost lacks = { λ sec. false };

    ghost some_lacks = { λ secs. false };

    ghost short = { signed-length };

    ghost none_lacks = { none-lacking };

    fn some_lacks(_secs: &[i64]) -> bool {
        false
    }

    fn put(out: &mut [u8], at: usize, sec: i64) -> usize {
        put_signed(out, at, sec)
    }
}

pub struct Dates;

impl Third for Dates {
    ghost text = { date_text };

    ghost lacks = { outside };

    ghost some_lacks = { λ secs. some_outside secs (length secs) };

    ghost short = { date-short };

    ghost none_lacks = { all-dated };

    fn some_lacks(secs: &[i64]) -> bool {
        first_outside(secs).is_some()
    }

    fn put(out: &mut [u8], at: usize, sec: i64) -> usize {
        put_date(out, at, Inside { second: sec })
    }
}
