// How many offers a table has counted since it was made or restored, by what became of each.
#![tactic(auto)]

pub mod inner; // inner.rt: before the first offer, one more, and whether they have grown too large: for our own crates

// What became of an offer that is counted: recorded; skipped, as its second is below the last recorded one, or not below it but
// before the interval has passed; or refused, as its second is out of domain (16) or its sequence drops (17).
#[derive(Clone, Copy)]
pub enum Fate {
    Recorded,
    WentBack,
    TooSoon,
    Refused,
}

// Programs in other languages get it as it is.
#[repr(C)]
#[derive(Clone, Copy)]
pub struct Totals {
    pub recorded: u64,
    pub went_back: u64,
    pub too_soon: u64,
    pub refused: u64,
}
