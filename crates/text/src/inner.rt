// Bytes and numbers as text, put into a lent buffer from a place on. Each function answers the place
// after its text. What a function requires is room for the longest text that it can make.
// Stays: no plainer. A struct of `out` and `at` borrows the buffer, and each contract then says it twice, as it was lent and as it is
// given back, where `Put out.old at text out.new result` says it once.
ghost use Rattle.std.specs.Prelude.{◌+◌, ◌≤◌, ◌<◌, [], ◌∷◌, length};
ghost use Rattle.text.specs.Inner.{Put};
ghost use Rattle.text.specs.Text.{decimal, signed_decimal, word_line};

pub fn put_byte(out: &mut [u8], at: usize, b: u8) -> usize
    requires { at < length out.old }
    ensures { Put out.old at (b ∷ []) out.new result }
{
    out[at] = b;
    at + 1
}

#[tactic(auto, using(crate::proofs::Putting::copied))]
pub fn put_bytes(out: &mut [u8], at: usize, s: &[u8]) -> usize
    requires { at + length s.now ≤ length out.old }
    ensures { Put out.old at s.now out.new result }
{
    let end = at + s.len();
    out[at..end].copy_from_slice(s);
    end
}

// The digits before the last one first: they are the decimal of n / 10.
pub fn put_decimal(out: &mut [u8], at: usize, n: u64) -> usize
    requires { at + 20 ≤ length out.old }
    ensures { Put out.old at (decimal n) out.new result }
{
    if n < 10 {
        return put_byte(out, at, b'0' + n as u8);
    }
    let p = put_decimal(out, at, n / 10);
    put_byte(out, p, b'0' + (n % 10) as u8)
}

#[tactic(auto, using(crate::proofs::Putting::then, crate::proofs::Numbers::negative, crate::proofs::Numbers::positive))]
pub fn put_signed(out: &mut [u8], at: usize, n: i64) -> usize
    requires { at + 21 ≤ length out.old }
    ensures { Put out.old at (signed_decimal n) out.new result }
{
    if n < 0 {
        let p = put_byte(out, at, b'-');
        return put_decimal(out, p, n.unsigned_abs());
    }
    put_decimal(out, at, n.unsigned_abs())
}

// A line of a word, which ends with its space, and a number.
pub fn put_word_line(out: &mut [u8], at: usize, word: &[u8], n: u64) -> usize
    requires { at + length word.now + 21 ≤ length out.old }
    ensures { Put out.old at (word_line word.now n) out.new result }
{
    let a = put_bytes(out, at, word);
    let b = put_decimal(out, a, n);
    put_byte(out, b, b'\n')
}
