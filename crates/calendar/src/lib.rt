// The Gregorian calendar, years 0001 to 9999 (docs/RULES.md, "Dates"): a date's second, and a second's date. For our own
// crates: no public call stands here.
#![tactic(auto)]

ghost use Rattle.std.specs.Prelude.{◌≡◌, true, false, IfSome, IfNone};
ghost use Rattle.limits.specs.Domain.{outside};

pub mod inner; // inner.rt: what our own crates call
mod months; // months.rt: months and their days
mod years; // years.rt: years and their days

use limits::inner::out_of_domain;

// A date and time of day; months and days count from 1.
#[derive(Clone, Copy)]
pub struct Date {
    pub year: u64,
    pub month: u64,
    pub day: u64,
    pub hour: u64,
    pub minute: u64,
    pub second: u64,
}

// A second of the domain, which has a date.
#[derive(Clone, Copy)]
pub struct Inside {
    pub second: i64,
    ghost in_domain: { outside second ≡ false },
}

impl Inside {
    pub fn of(second: i64) -> Option<Inside>
        ensures some { IfSome result (λ s. s.second ≡ second) }
        ensures none { IfNone result (outside second ≡ true) }
    {
        if out_of_domain(second) {
            return None;
        }
        Some(Inside { second })
    }
}
