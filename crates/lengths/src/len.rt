// The bits of a code, of an array, and the bytes of the image.
ghost use Rattle.std.specs.Prelude.{◌≡◌, map, ◌≤◌, length};
ghost use Rattle.gorilla.specs.Format.{code_bits, array_bits, image_bytes};

use code_writer::inner::{RUN, take_run};
use gorilla::inner::{advance, row_of};
use gorilla::{Stored, Track};

// The bits of a code.
fn code_len(dod: i64) -> usize
    ensures { result ≡ length (code_bits dod) }
{
    let row = row_of(dod);
    usize::from(row.prefix_bits + row.width)
}

// The bits of an array. A zero code is counted without a look at the rows, and after it a run of them at once.
fn array_bits<T: Stored>(values: &[T]) -> usize
    requires { length values.now ≤ 65536 }
    ensures { result ≡ length (array_bits (map T.as_z values.now)) }
{
    let Some((first, mut rest)) = values.split_first() else {
        return 32;
    };
    let mut t = Track {
        prev: first.to_signed(),
        delta: 0,
    };
    let mut total: usize = 96;
    // Stays: no plainer. A `while let` down the slice, as a run takes seven values more, which a `for` could not skip.
    while let Some((value, after)) = rest.split_first() {
        let c = advance(t, value.to_signed());
        t = c.next;
        rest = after;
        if c.dod != 0 {
            total += code_len(c.dod);
            continue;
        }
        total += 1;
        if let Some((next, after)) = take_run(rest, t) {
            t = next;
            rest = after;
            total += RUN;
        }
    }
    total
}

// The bytes of the image.
pub fn image_bytes(seqs: &[u64], secs: &[i64]) -> usize
    requires { (length seqs.now ≤ 65536) × (length secs.now ≤ 65536) }
    ensures { result ≡ length (image_bytes seqs.now secs.now) }
{
    5 + array_bits(seqs).div_ceil(8) + array_bits(secs).div_ceil(8)
}
