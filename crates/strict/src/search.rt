// The first difference of deltas outside -2^31..2^31-1.
ghost use Rattle.std.specs.Prelude.{◌≡◌, map};
ghost use Rattle.gorilla.specs.Array.{array_no};
ghost use Rattle.gorilla.specs.Wide.{wide_in, wide_of};
ghost use Rattle.strict.specs.Inner.{found_wide};

use crate::calm::calm;
use gorilla::inner::{advance, is_strict};
use gorilla::{Array, Stored, Track};

// Among the values of one array, by a search.
fn search<T: Stored>(array: Array, values: &[T]) -> Option<(Array, usize)>
    ensures { found_wide result ≡ wide_in (array_no array) (map T.as_z values.now) }
{
    let (first, rest) = values.split_first()?;
    let mut t = Track {
        prev: first.to_signed(),
        delta: 0,
    };
    for (i, value) in rest.iter().enumerate() {
        let c = advance(t, value.to_signed());
        if !is_strict(c.dod) {
            return Some((array, i + 1));
        }
        t = c.next;
    }
    None
}

// Among the values of one array, with no search where their deltas are small.
fn first_wide_in<T: Stored>(array: Array, values: &[T]) -> Option<(Array, usize)>
    ensures { found_wide result ≡ wide_in (array_no array) (map T.as_z values.now) }
{
    if calm(values) {
        return None;
    }
    search(array, values)
}

// Sequences before seconds.
pub fn first_wide(seqs: &[u64], secs: &[i64]) -> Option<(Array, usize)>
    ensures { found_wide result ≡ wide_of seqs.now secs.now }
{
    match first_wide_in(Array::Sequences, seqs) {
        Some(at) => Some(at),
        None => first_wide_in(Array::Seconds, secs),
    }
}
