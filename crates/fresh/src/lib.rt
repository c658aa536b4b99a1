// Tables just made: empty ones, at the default settings or at settings that are named.
#![tactic(auto)]

ghost use Rattle.std.specs.Prelude.{◌≡◌};
ghost use Rattle.tracker.specs.Refusal.{told_made};
ghost use Rattle.fresh.specs.Fresh.{new_table, config_of};

use tracker::{Refusal, SequenceTracker};

pub mod inner;

pub const DEFAULT_CAPACITY: u32 = 8192;

// The Rust has 60, which is too coarse for models that write in short bursts.
pub const DEFAULT_INTERVAL_SECS: u64 = 10;

// An empty table with the default settings.
pub fn new() -> SequenceTracker
    ensures { result ≡ new_table }
{
    inner::fresh(DEFAULT_CAPACITY, DEFAULT_INTERVAL_SECS, 0, None)
}

// An empty table with the settings named, if they are valid.
pub fn with_config(capacity: u32, interval_secs: u64) -> Result<SequenceTracker, Refusal>
    ensures { told_made result ≡ config_of capacity interval_secs }
{
    if limits::inner::bad_settings(capacity, interval_secs) {
        return Err(Refusal::Settings);
    }
    Ok(inner::fresh(capacity, interval_secs, 0, None))
}
