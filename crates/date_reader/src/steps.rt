// The parts of a date-time, each read from the front of the text: what it says, with what is left of the text, or `None`.
ghost use Rattle.std.specs.Prelude.{◌≡◌, ◌≤◌, [], ◌∷◌};
ghost use Rattle.gorilla.specs.Parser.{read};
ghost use Rattle.text_reader.specs.Inner.{as_read, as_rest};
ghost use Rattle.date_reader.specs.Grammar.{number, either, byte, up_to, fraction, num_offset, offset, end};
ghost use Rattle.date_reader.specs.Inner.{told_end};

use crate::Zone;
use text_reader::inner::digit;

// The number of k digits.
#[tactic(auto, using(crate::proofs::Counted::partly_none, crate::proofs::Counted::partly_more, crate::proofs::Counted::partly_bad, crate::proofs::Counted::partly_fits, crate::proofs::Counted::partly_all))]
pub fn number(s: &[u8], k: usize) -> Option<(u64, &[u8])>
    requires { k ≤ 4 }
    ensures { as_read (25 ∷ []) result ≡ number k s.now }
{
    let mut n = 0;
    let mut rest = s;
    'digits: for _ in 0..k {
        let (d, after) = digit(rest)?;
        n = n * 10 + d;
        rest = after;
    }
    Some((n, rest))
}

// One of two bytes, which are a letter in either case.
#[tactic(auto, unfolding(crate::specs::Grammar::either))]
pub fn either(s: &[u8], a: u8, b: u8) -> Option<&[u8]>
    ensures { as_rest (25 ∷ []) result ≡ either a b s.now }
{
    match s {
        [x, rest @ ..] if *x == a || *x == b => Some(rest),
        _ => None,
    }
}

pub fn byte(s: &[u8], a: u8) -> Option<&[u8]>
    ensures { as_rest (25 ∷ []) result ≡ byte a s.now }
{
    either(s, a, a)
}

// What is left after all digits that stand here, but after k at most.
#[tactic(auto, using(crate::proofs::Counted::up_to_more, crate::proofs::Counted::up_to_end, crate::proofs::Counted::up_to_all))]
fn up_to(s: &[u8], k: usize) -> &[u8]
    ensures { up_to k s.now ≡ read tt result.now }
{
    let mut rest = s;
    'digits: for _ in 0..k {
        let Some((_, after)) = digit(rest) else {
            break;
        };
        rest = after;
    }
    rest
}

// Nothing, or a point and one to nine digits.
#[tactic(auto, unfolding(crate::specs::Grammar::fraction))]
pub fn fraction(s: &[u8]) -> Option<&[u8]>
    ensures { as_rest (25 ∷ []) result ≡ fraction s.now }
{
    match s {
        [b'.', rest @ ..] => {
            let (_, rest) = number(rest, 1)?;
            Some(up_to(rest, 8))
        }
        _ => Some(s),
    }
}

// An offset after its sign.
fn num_offset(s: &[u8], ahead: bool) -> Option<(Zone, &[u8])>
    ensures { as_read (25 ∷ []) result ≡ num_offset ahead s.now }
{
    let (hours, s) = number(s, 2)?;
    let s = byte(s, b':')?;
    let (minutes, s) = number(s, 2)?;
    let zone = Zone {
        ahead,
        hours,
        minutes,
    };
    Some((zone, s))
}

// The zone.
#[tactic(auto, unfolding(crate::specs::Grammar::offset))]
pub fn offset(s: &[u8]) -> Option<(Zone, &[u8])>
    ensures { as_read (25 ∷ []) result ≡ offset s.now }
{
    match s {
        [b'Z' | b'z', rest @ ..] => Some((UTC, rest)),
        [b'+', rest @ ..] => num_offset(rest, true),
        [b'-', rest @ ..] => num_offset(rest, false),
        _ => None,
    }
}

// No byte follows.
#[tactic(auto, unfolding(crate::specs::Grammar::end))]
pub fn end(s: &[u8]) -> Option<()>
    ensures { told_end result ≡ end s.now }
{
    match s {
        [] => Some(()),
        _ => None,
    }
}

// No offset.
const UTC: Zone = Zone {
    ahead: true,
    hours: 0,
    minutes: 0,
};
