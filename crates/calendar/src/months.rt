// Months, and the days of a year before one. Months and days count from 0 here.
ghost use Rattle.std.specs.Prelude.{◌≡◌, ◌<◌, get_or, take};
ghost use Rattle.calendar.specs.Calendar.{lengths_of, summed};
ghost use Rattle.calendar.specs.Inner.{part};

// The lengths of the months of a common year.
const MONTH_LENGTHS: [u64; 12] = [31, 28, 31, 30, 31, 30, 31, 31, 30, 31, 30, 31];

// A month of a year, and a day of it.
#[derive(Clone, Copy)]
pub struct Place {
    pub month: u64,
    pub day: u64,
}

#[tactic(auto, using(crate::proofs::Steps::february, crate::proofs::Steps::other, crate::proofs::Steps::common))]
pub fn month_length(leap: bool, m: usize) -> u64
    requires { m < 12 }
    ensures { result ≡ get_or (lengths_of leap) m 0 }
{
    if leap && m == 1 { 29 } else { MONTH_LENGTHS[m] }
}

// The days before month m.
#[tactic(auto, using(crate::proofs::Steps::ahead_more, crate::proofs::Steps::with_next), unfolding(crate::specs::Calendar::summed))]
pub fn days_before_month(leap: bool, m: usize) -> u64
    requires { m < 12 }
    ensures { result ≡ summed (take m (lengths_of leap)) }
{
    let mut n = 0;
    for i in 0..m {
        n += month_length(leap, i);
    }
    n
}

// The month, and the day of it, that day d of a year is.
#[tactic(auto, using(crate::proofs::Steps::ahead_more, crate::proofs::Steps::found), unfolding(crate::specs::Calendar::summed))]
pub fn place_in(leap: bool, d: u64) -> Place
    requires { d < summed (lengths_of leap) }
    ensures { record { index = result.month; rest = result.day } ≡ part (lengths_of leap) d }
{
    let mut day = d;
    for m in 0..12 {
        let length = month_length(leap, m);
        if day < length {
            return Place {
                month: m as u64,
                day,
            };
        }
        day -= length;
    }
    unreachable!()
}
