// One array, written from a whole byte on.
// Stays: a rule of the project, state by value (docs/RULES.md): the buffer and the place in it are two, and the place comes back.
ghost use Rattle.std.specs.Prelude.{map, ◌+◌, ◌*◌, ◌≤◌, length};
ghost use Rattle.gorilla.specs.Format.{array_bits};
ghost use Rattle.array_writer.specs.Inner.{CodesFit, CodesPut, ArrayPut};

use bits::Place;
use code_writer::Held;
use code_writer::inner::{
    RUN, code_of, joined, put, rounded, take_run, takes_zero, write_head, write_none,
};
use gorilla::inner::advance;
use gorilla::{Stored, Track};

// The codes of the values after the first, put a word at a time. A zero bit is by far the most frequent code, so that it is
// joined without a look at the rows, and after it a run of them at once.
fn write_codes<T: Stored>(buf: &mut [u8], at: Place, first: i64, values: &[T]) -> Place
    requires { CodesFit buf.old at first (map T.as_z values.now) }
    ensures { CodesPut buf.old at first (map T.as_z values.now) result buf.new }
{
    let mut t = Track {
        prev: first,
        delta: 0,
    };
    let mut p = at;
    let mut held = Held { value: 0, width: 0 };
    let mut rest = values;
    // Stays: no plainer. A `while let` down the slice, as a run takes seven values more, which a `for` could not skip.
    while let Some((value, after)) = rest.split_first() {
        let c = advance(t, value.to_signed());
        t = c.next;
        rest = after;
        if takes_zero(held.width, c.dod) {
            held = joined(held, Held { value: 0, width: 1 });
            let run = Held {
                value: 0,
                width: RUN as u8,
            };
            if held.width + run.width <= 64 {
                if let Some((next, after)) = take_run(rest, t) {
                    held = joined(held, run);
                    t = next;
                    rest = after;
                }
            }
            continue;
        }
        let code = code_of(c.dod);
        if held.width + code.width <= 64 {
            held = joined(held, code);
            continue;
        }
        p = put(buf, p, held.value, held.width);
        held = code;
    }
    put(buf, p, held.value, held.width)
}

// The array from the byte `from` on, and the byte after it.
pub fn write_array<T: Stored>(buf: &mut [u8], from: usize, values: &[T]) -> usize
    requires { from * 8 + length (array_bits (map T.as_z values.now)) ≤ length buf.old * 8 }
    ensures { ArrayPut buf.old from (map T.as_z values.now) result buf.new }
{
    let Some((first, rest)) = values.split_first() else {
        return write_none(buf, from);
    };
    let first = first.to_signed();
    let p = write_head(buf, from, values.len(), signed::as_unsigned(first));
    rounded(write_codes(buf, p, first, rest))
}
