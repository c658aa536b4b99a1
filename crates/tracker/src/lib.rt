// The table of sequence numbers and seconds: its state, and what every call on a table checks. The pairs stand in two arrays
// that the caller lends; the state says how many of them are kept.
#![tactic(auto)]

ghost use Rattle.std.specs.Prelude.{◌≡◌};
ghost use Rattle.tracker.specs.Refusal.{told_check};
ghost use Rattle.tracker.specs.Table.{check_of};

use totals::Totals;

pub mod inner;
mod number; // number.rt: the number of a refusal
mod state;

// A sequence number and a second are different things: one cannot be passed as the other. Both cross to other languages as the number they hold.
#[repr(C)]
#[derive(Clone, Copy)]
pub struct Seq(pub u64);

#[repr(C)]
#[derive(Clone, Copy)]
pub struct Second(pub i64);

#[derive(Clone, Copy)]
pub struct TrackedSeq {
    pub seq: Seq,
    pub ts: Second,
}

#[derive(Clone, Copy)]
pub struct SequenceTracker {
    pub count: usize,
    pub capacity: u32,
    pub interval_secs: u64,
    pub last_recorded_ts: Option<Second>,
    pub totals: Totals,
}

// Why a call on a table refuses; an index is a position among the kept pairs.
#[derive(Clone, Copy)]
pub enum Refusal {
    Disagrees,
    SequenceDrops(usize),
    SecondDrops(usize),
    SecondOutside(usize),
    Settings,
    OfferedOutside,
    OfferedDrops,
    TotalsFull,
}

// What every call on a table checks first: that state and arrays agree, then the kept pairs.
// Stays: the state and the two arrays stand apart, here and in every call on a table: C lends the arrays for the call alone, and the state is a value (document 01).
pub fn check(table: SequenceTracker, seqs: &[u64], secs: &[i64]) -> Result<(), Refusal>
    ensures { told_check result ≡ check_of table seqs.now secs.now }
{
    if state::disagrees(table, seqs, secs) {
        return Err(Refusal::Disagrees);
    }
    let n = table.count;
    inner::pairs(seqs, secs, n)
}
