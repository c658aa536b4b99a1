// The second that a date-time of the grammar says, or why it says none.
ghost use Rattle.std.specs.Prelude.{◌≡◌, true};
ghost use Rattle.dates.specs.Refusal.{told_read};
ghost use Rattle.dates.specs.Read.{is_offset, offset_of, if_inside, judged};

use crate::Refusal;
use calendar::inner::{is_date, second_of};
use date_reader::{Stamp, Zone};
use limits::inner::out_of_domain;
use tracker::Second;

#[tactic(auto, unfolding(crate::specs::Read::is_offset))]
fn is_offset(z: Zone) -> bool
    ensures { result ≡ is_offset z }
{
    z.hours <= 23 && z.minutes <= 59
}

// How many seconds the local time is ahead of UTC.
#[tactic(auto, using(crate::proofs::Judged::ahead_is, crate::proofs::Judged::behind_fits, crate::proofs::Judged::behind_is), unfolding(crate::specs::Read::is_offset))]
fn offset_of(z: Zone) -> i64
    requires { is_offset z ≡ true }
    ensures { result ≡ offset_of z }
{
    let by = ((z.hours * 60 + z.minutes) * 60) as i64;
    if z.ahead { by } else { -by }
}

fn if_inside(s: i64) -> Result<Second, Refusal>
    ensures { told_read result ≡ if_inside s }
{
    if out_of_domain(s) {
        return Err(Refusal::Outside);
    }
    Ok(Second(s))
}

// 26 before 27: whether the date is there is asked of the local one, as it stands in the text.
#[tactic(auto, using(crate::proofs::Judged::utc_fits, crate::proofs::Judged::both), unfolding(crate::specs::Read::judged))]
pub fn judge(stamp: Stamp) -> Result<Second, Refusal>
    ensures { told_read result ≡ judged stamp }
{
    if !is_date(stamp.date) || !is_offset(stamp.zone) {
        return Err(Refusal::NoSuchTime);
    }
    if_inside(second_of(stamp.date) - offset_of(stamp.zone))
}
