// A text taken apart by the grammar, for our own crates. Its numbers are not judged here.
ghost use Rattle.std.specs.Prelude.{◌≡◌};
ghost use Rattle.date_reader.specs.Grammar.{date_time};
ghost use Rattle.date_reader.specs.Inner.{told_stamp};

use crate::Stamp;
use crate::steps::{byte, either, end, fraction, number, offset};
use calendar::Date;

// The whole text.
#[tactic(auto, unfolding(crate::specs::Grammar::date_time))]
pub fn stamp_of(text: &[u8]) -> Option<Stamp>
    ensures { told_stamp result ≡ date_time text.now }
{
    let (year, s) = number(text, 4)?;
    let s = byte(s, b'-')?;
    let (month, s) = number(s, 2)?;
    let s = byte(s, b'-')?;
    let (day, s) = number(s, 2)?;
    let s = either(s, b'T', b't')?;
    let (hour, s) = number(s, 2)?;
    let s = byte(s, b':')?;
    let (minute, s) = number(s, 2)?;
    let s = byte(s, b':')?;
    let (second, s) = number(s, 2)?;
    let s = fraction(s)?;
    let (zone, s) = offset(s)?;
    end(s)?;
    let date = Date {
        year,
        month,
        day,
        hour,
        minute,
        second,
    };
    Some(Stamp { date, zone })
}
