// The one place where a state is built that no offer has changed: restore makes its tables here too.
ghost use Rattle.std.specs.Prelude.{◌≡◌};
ghost use Rattle.fresh.specs.Fresh.{fresh_table};

use tracker::{Second, SequenceTracker};

pub fn fresh(
    capacity: u32,
    interval_secs: u64,
    count: usize,
    last_recorded_ts: Option<Second>,
) -> SequenceTracker
    ensures { result ≡ fresh_table capacity interval_secs count last_recorded_ts }
{
    let none = totals::inner::no_totals();
    SequenceTracker {
        count,
        capacity,
        interval_secs,
        last_recorded_ts,
        totals: none,
    }
}
