// What became of the records of a list of offers, in numbers.
#![tactic(auto)]

pub mod inner; // inner.rt: before the first record, one more, all together: for our own crates, as two of them have a `requires`

// How many records were recorded, and how many skipped, by the reason: a second below the last recorded one, or not below it
// but before the interval has passed. Programs in other languages get it as it is.
#[repr(C)]
#[derive(Clone, Copy)]
pub struct Tally {
    pub recorded: usize,
    pub went_back: usize,
    pub too_soon: usize,
}
