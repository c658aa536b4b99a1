// The parts of a line, each read from the front of the bytes, with what follows: a number that fits its key, what follows the number.
ghost use Rattle.std.specs.Prelude.{◌≤◌, ◌^◌, ◌≡◌, pos, neg_ℤ, IfSome};
ghost use Rattle.question_lines.specs.Grammar.{not_the_form, number, negative, not_negative, second, direction, ending};
ghost use Rattle.question_lines.specs.Inner.{as_read};

use lookup::FindOption;
use text_reader::inner::{digits, word};
use tracker::Second;

// One or more digits, whose number is `most` at most.
pub fn number(s: &[u8], most: u64) -> Option<(u64, &[u8])>
    ensures read { as_read result ≡ number most s.now }
    ensures most { IfSome result (λ r. r.0 ≤ most) }
{
    let (value, s) = digits(s)?;
    let n = value?;
    if most < n { None } else { Some((n, s)) }
}

// A second with a minus.
fn negative(s: &[u8]) -> Option<(Second, &[u8])>
    ensures { as_read result ≡ negative s.now }
{
    let s = word(s, b"-")?;
    let (n, s) = number(s, i64::MIN.unsigned_abs())?;
    Some((Second(0i64.checked_sub_unsigned(n)?), s))
}

// A second with none.
fn not_negative(s: &[u8]) -> Option<(Second, &[u8])>
    ensures { as_read result ≡ not_negative s.now }
{
    let (n, s) = number(s, i64::MAX.unsigned_abs())?;
    Some((Second(n as i64), s))
}

// A second of 64 bits.
pub fn second(s: &[u8]) -> Option<(Second, &[u8])>
    ensures { as_read result ≡ second s.now }
{
    negative(s).or_else(|| not_negative(s))
}

// `up` or `down`.
fn direction(s: &[u8]) -> Option<(FindOption, &[u8])>
    ensures { as_read result ≡ direction s.now }
{
    if let Some(s) = word(s, b"up") {
        return Some((FindOption::RoundUp, s));
    }
    let s = word(s, b"down")?;
    Some((FindOption::RoundDown, s))
}

// What follows the number: one space, the direction, LF.
pub fn ending(s: &[u8]) -> Option<(FindOption, &[u8])>
    ensures { as_read result ≡ ending s.now }
{
    let s = word(s, b" ")?;
    let (find_opt, s) = direction(s)?;
    let s = word(s, b"\n")?;
    Some((find_opt, s))
}
