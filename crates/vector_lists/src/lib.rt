// Lists of sequences and of seconds. For the program `vectors` and the crates beside it.
#![tactic(auto)]

ghost use Rattle.std.specs.Prelude.{◌≡◌, take};

use vector_bytes::{Body, Number};

// The next n numbers of a body, or as many as there is room for.
fn read_list<T: Number>(body: &mut Body<'_>, n: usize, to: &mut [T]) {
    for x in to.iter_mut().take(n) {
        *x = body.read();
    }
}

// The n pairs that a body lists: the sequences, then the seconds.
pub fn read_pairs(body: &mut Body<'_>, n: usize, seqs: &mut [u64], secs: &mut [i64]) {
    read_list(body, n, seqs);
    read_list(body, n, secs);
}

// The first n, or all where there are fewer.
pub fn first<T>(list: &[T], n: usize) -> &[T]
    ensures { result.now ≡ take n list.now }
{
    list.get(..n).unwrap_or(list)
}
