// Years, and the days before one.
ghost use Rattle.std.specs.Prelude.{◌≡◌, ◌≤◌, ◌<◌};
ghost use Rattle.calendar.specs.Calendar.{leap, days_of_years};
ghost use Rattle.calendar.specs.Inner.{years_before};

// Whether the year has a 29th of February.
#[tactic(auto, unfolding(crate::specs::Calendar::leap))]
pub fn is_leap(year: u64) -> bool
    ensures { result ≡ leap year }
{
    year % 4 == 0 && (year % 100 != 0 || year % 400 == 0)
}

// The days of the years 1 to k.
#[tactic(auto, using(crate::proofs::YearDays::closed_form))]
pub fn days_of_years(k: u64) -> u64
    requires { k ≤ 10000 }
    ensures { result ≡ days_of_years k }
{
    365 * k + k / 4 - k / 100 + k / 400
}

// How many whole years stand before day d, days counted from 0: 400 years have 146,097 days, and a guess by that is right or one too low.
#[tactic(auto, using(crate::proofs::Steps::guess_holds, crate::proofs::Steps::guess_low))]
pub fn years_before(d: u64) -> u64
    requires { d < 3652059 }
    ensures { result ≡ years_before d }
{
    let k = d * 400 / 146097;
    if d < days_of_years(k + 1) { k } else { k + 1 }
}
