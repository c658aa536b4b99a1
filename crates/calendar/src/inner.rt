// A date's second, and a second's date, for our own crates. A moment is a count of seconds from 0001-01-01T00:00:00Z on.
ghost use Rattle.std.specs.Prelude.{◌≡◌, true, false, ◌≤◌, ◌<◌};
ghost use Rattle.limits.specs.Domain.{outside};
ghost use Rattle.calendar.specs.Calendar.{moment_of, second_of, within, is_day, is_time, is_date};
ghost use Rattle.calendar.specs.Inner.{Valid, date_of, moment_at};

use crate::months::{days_before_month, month_length, place_in};
use crate::years::{days_of_years, is_leap, years_before};
use crate::{Date, Inside};

// How many seconds 1970 is after the first moment.
const EPOCH: i64 = 62135596800;

#[tactic(auto, unfolding(crate::specs::Calendar::is_day))]
fn is_day(d: Date) -> bool
    requires { (1 ≤ d.month) × (d.month ≤ 12) }
    ensures { result ≡ is_day d.year d.month d.day }
{
    (1..=month_length(is_leap(d.year), (d.month - 1) as usize)).contains(&d.day)
}

#[tactic(auto, unfolding(crate::specs::Calendar::is_time))]
fn is_time(d: Date) -> bool
    ensures { result ≡ is_time d.hour d.minute d.second }
{
    d.hour < 24 && d.minute < 60 && d.second < 60
}

// Whether the calendar has this date and time of day.
#[tactic(auto, unfolding(crate::specs::Calendar::is_date))]
pub fn is_date(d: Date) -> bool
    ensures { result ≡ is_date d }
{
    (1..=9999).contains(&d.year) && (1..=12).contains(&d.month) && is_day(d) && is_time(d)
}

#[tactic(auto, using(crate::proofs::Calls::m_small))]
fn moment_of(d: Date) -> u64
    requires { Valid d }
    ensures { result ≡ moment_of d }
{
    let days = days_of_years(d.year - 1)
        + days_before_month(is_leap(d.year), (d.month - 1) as usize)
        + (d.day - 1);
    days * 86400 + d.hour * 3600 + d.minute * 60 + d.second
}

// The second of a date.
#[tactic(auto, using(crate::proofs::Moments::valid_means, crate::proofs::Moments::sub_fits, crate::proofs::Moments::sub_is, crate::proofs::Trip::moment_in))]
pub fn second_of(d: Date) -> i64
    requires { is_date d ≡ true }
    ensures { result ≡ second_of d }
{
    moment_of(d) as i64 - EPOCH
}

#[tactic(auto, using(crate::proofs::Calls::y_small, crate::proofs::Calls::y_from, crate::proofs::Calls::y_in, crate::proofs::Calls::p_small, crate::proofs::Calls::p_made))]
fn date_at(n: u64) -> Date
    requires { n < 315537897600 }
    ensures { result ≡ date_of n }
{
    let d = n / 86400;
    let t = n % 86400;
    let y = years_before(d);
    let p = place_in(is_leap(y + 1), d - days_of_years(y));
    Date {
        year: y + 1,
        month: p.month + 1,
        day: p.day + 1,
        hour: t / 3600,
        minute: t / 60 % 60,
        second: t % 60,
    }
}

// The date of a second of the domain.
#[tactic(auto, using(crate::proofs::Moments::sum_is, crate::proofs::Moments::sum_cast))]
pub fn date_of(s: Inside) -> Date
    ensures { result ≡ date_of (moment_at s.second) }
{
    date_at((s.second + EPOCH) as u64)
}
