// A number as text: a second in decimal, a minus before negatives, and a sequence or a position in decimal.
ghost use Rattle.std.specs.Prelude.{◌+◌, ◌≤◌, ℕ, List, length};
ghost use Rattle.text.specs.Inner.{Put};
ghost use Rattle.text.specs.Text.{decimal, signed_decimal};
ghost use Rattle.why_text.specs.Answers.{second-short, seq-short, position-short};

use text::inner::{put_decimal, put_signed};
use tracker::{Second, Seq};

pub trait Answer {
    // its text, 21 bytes at most
    ghost number: { Self → List ℕ };

    fn put(self, out: &mut [u8], at: usize) -> usize
        requires { at + 21 ≤ length out.old }
        ensures { Put out.old at (number self) out.new result };

    ghost short: { (a : Self) → length (number a) ≤ 21 };
}

impl Answer for Second {
    ghost number = { λ s. signed_decimal s.0 };

    ghost short = { second-short };

    fn put(self, out: &mut [u8], at: usize) -> usize {
        put_signed(out, at, self.0)
    }
}

impl Answer for Seq {
    ghost number = { λ q. decimal q.0 };

    ghost short = { seq-short };

    fn put(self, out: &mut [u8], at: usize) -> usize {
        put_decimal(out, at, self.0)
    }
}

impl Answer for usize {
    ghost number = { decimal };

    ghost short = { position-short };

    fn put(self, out: &mut [u8], at: usize) -> usize {
        put_decimal(out, at, self as u64)
    }
}
