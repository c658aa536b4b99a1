// A table that comes in as a state, and one that goes out.
ghost use Rattle.std.specs.Prelude.{◌≡◌, cond, ltb};
ghost use Rattle.states.specs.State.{last_in, no_capacity, table_of, round_of, state_of, no_state};

use crate::State;
use lookup::FindOption;
use tracker::{Second, SequenceTracker};

// A capacity above 8,192, which every call refuses with 14.
const NO_CAPACITY: u32 = 4294967295;

fn last_in(mark: u32, last: i64) -> Option<Second>
    ensures { result ≡ last_in mark last }
{
    if mark == 0 {
        return None;
    }
    Some(Second(last))
}

fn capacity_in(mark: u32, capacity: u32) -> u32
    ensures { result ≡ cond (ltb 1 mark) no_capacity capacity }
{
    if mark > 1 { NO_CAPACITY } else { capacity }
}

pub fn table_of(state: State) -> SequenceTracker
    ensures { result ≡ table_of state }
{
    let last = last_in(state.has_last, state.last);
    let capacity = capacity_in(state.has_last, state.capacity);
    let totals = state.totals;
    SequenceTracker {
        count: state.count,
        capacity: capacity,
        interval_secs: state.interval_secs,
        last_recorded_ts: last,
        totals: totals,
    }
}

pub fn round_of(round: u32) -> FindOption
    ensures { result ≡ round_of round }
{
    if round == 0 {
        return FindOption::RoundUp;
    }
    FindOption::RoundDown
}

pub fn state_of(table: SequenceTracker) -> State
    ensures { result ≡ state_of table }
{
    let last = table.last_recorded_ts;
    let totals = table.totals;
    match last {
        None => State {
            count: table.count,
            capacity: table.capacity,
            has_last: 0,
            interval_secs: table.interval_secs,
            last: 0,
            totals: totals,
        },
        Some(s) => State {
            count: table.count,
            capacity: table.capacity,
            has_last: 1,
            interval_secs: table.interval_secs,
            last: s.0,
            totals: totals,
        },
    }
}

// The state given where none is returned: every call refuses it.
pub fn no_state() -> State
    ensures { result ≡ no_state }
{
    let none = totals::inner::no_totals();
    State {
        count: 0,
        capacity: NO_CAPACITY,
        has_last: 0,
        interval_secs: 0,
        last: 0,
        totals: none,
    }
}
