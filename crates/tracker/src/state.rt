// Whether state and arrays disagree.
ghost use Rattle.std.specs.Prelude.{◌≡◌, ◌≤◌, length};
ghost use Rattle.tracker.specs.Table as rules;

use crate::{Second, SequenceTracker};

fn last_wrong(last: Option<Second>, secs: &[i64], n: usize) -> bool
    requires { n ≤ length secs.now }
    ensures { result ≡ rules.last_wrong last secs.now n }
{
    match last {
        None => n != 0,
        Some(s) => {
            if n == 0 {
                return true;
            }
            let x = s.0;
            if limits::inner::out_of_domain(x) {
                return true;
            }
            x < secs[n - 1]
        }
    }
}

pub(crate) fn disagrees(table: SequenceTracker, seqs: &[u64], secs: &[i64]) -> bool
    ensures { result ≡ rules.disagrees table seqs.now secs.now }
{
    if limits::inner::bad_settings(table.capacity, table.interval_secs) {
        return true;
    }
    let r = limits::inner::room(table.capacity);
    if seqs.len() < r {
        return true;
    }
    if secs.len() < r {
        return true;
    }
    let n = table.count;
    if n > r {
        return true;
    }
    let last = table.last_recorded_ts;
    if last_wrong(last, secs, n) {
        return true;
    }
    let totals = table.totals;
    totals::inner::too_many(totals)
}
