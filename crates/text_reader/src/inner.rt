// What stands at the front of a text: each reader answers what it read, with what follows it, or `None`.
ghost use Rattle.std.specs.Prelude.{◌≡◌, List, ℕ};
ghost use Rattle.text_reader.specs.Words.{word};
ghost use Rattle.text_reader.specs.Inner.{seen, as_rest, digit_of, DigitsOf, one_more};

// A digit, as its number.
#[tactic(auto, unfolding(crate::specs::Digits::is_digit))]
pub fn digit(s: &[u8]) -> Option<(u64, &[u8])>
    ensures { seen result ≡ digit_of s.now }
{
    match s {
        [x, rest @ ..] if x.is_ascii_digit() => Some((u64::from(*x - b'0'), rest)),
        _ => None,
    }
}

// These very bytes.
#[tactic(auto, using(crate::proofs::Fronts::stripped))]
pub fn word<'a>(s: &'a [u8], w: &[u8]) -> Option<&'a [u8]>
    ensures { (l : List ℕ) → as_rest l result ≡ word l w.now s.now }
{
    s.strip_prefix(w)
}

// A number with one digit more after it, where both are of 64 bits.
fn with_digit(value: Option<u64>, d: u64) -> Option<u64>
    ensures { result ≡ one_more value d }
{
    value?.checked_mul(10)?.checked_add(d)
}

// One or more digits, all that stand here: their number, where it is one of 64 bits.
// Stays: no plainer as a `for`: the `while let` goes on as long as a digit is read, and counts nothing.
#[tactic(auto, using(crate::proofs::Fronts::so_far_one, crate::proofs::Fronts::so_far_more, crate::proofs::Fronts::so_far_all, crate::proofs::Fronts::no_digits))]
pub fn digits(s: &[u8]) -> Option<(Option<u64>, &[u8])>
    ensures { DigitsOf s.now (seen result) }
{
    let (first, mut rest) = digit(s)?;
    let mut value = Some(first);
    while let Some((d, after)) = digit(rest) {
        value = with_digit(value, d);
        rest = after;
    }
    Some((value, rest))
}
