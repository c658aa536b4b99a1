// Runs of zero codes: a value that is as far above the one before it as that one was has a code of one zero bit. That
// several values are so is told by sums alone, which cost far less than their codes one by one.
ghost use Rattle.std.specs.Prelude.{map, IfSome};
ghost use Rattle.code_writer.specs.Inner.{Run};

use gorilla::{Stored, Track};

// The values of a run.
pub const RUN: usize = 7;

// Where the run leads that values begin with, and the values after it; `t` is the value before them with its delta. None need
// not mean that the next code is another.
pub fn take_run<T: Stored>(values: &[T], t: Track) -> Option<(Track, &[T])>
    ensures { IfSome result (λ r. Run (map T.as_z values.now) t (map T.as_z r.1.now) r.0) }
{
    let (run, rest) = values.split_at_checked(RUN)?;
    let mut v = t.prev;
    for value in run {
        v = signed::wrapping_add(v, t.delta);
        if value.to_signed() != v {
            return None;
        }
    }
    Some((Track { prev: v, ..t }, rest))
}
