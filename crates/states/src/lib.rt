// A table's state as a struct of numbers, for programs in other languages, and which way a lookup rounds.
#![tactic(auto)]

pub mod inner; // inner.rt: what our own crates call

use totals::Totals;

// Stays: a mark beside the last second, since the struct crosses to C as it stands (#[repr(C)]).
// `has_last` says whether `last` is there: 0 is no, 1 yes, and any other number makes it a state that every call refuses.
#[repr(C)]
#[derive(Clone, Copy)]
pub struct State {
    pub count: usize,
    pub capacity: u32,
    pub has_last: u32,
    pub interval_secs: u64,
    pub last: i64,
    pub totals: Totals,
}
