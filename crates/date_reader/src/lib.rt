// The grammar of a date-time, RFC 3339, section 5.6 (docs/RULES.md, "Dates"), for our own crates: no public call stands here.
#![tactic(auto)]

pub mod inner; // inner.rt: the whole text
mod steps; // steps.rt: the parts of a date-time

use calendar::Date;

// How far the local time is from UTC, and whether it is ahead of it.
#[derive(Clone, Copy)]
pub struct Zone {
    pub ahead: bool,
    pub hours: u64,
    pub minutes: u64,
}

// What a date-time says, whatever its numbers are: the local date and time of day, and how far they are from UTC.
#[derive(Clone, Copy)]
pub struct Stamp {
    pub date: Date,
    pub zone: Zone,
}
