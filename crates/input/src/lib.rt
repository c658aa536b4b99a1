// Standard input, read to its end, for the programs. No contract can say which bytes a terminal or a file gives, or that a read was made. What can be
// said is said of the buffer and of the count, and by the answer, since a program has no `Over` but from here; and of the bytes at a reader that tells
// which it has left.
#![tactic(auto)]

ghost use Rattle.std.specs.Prelude.{take};
ghost use Rattle.std.specs.Io.KnownBytes.{Consumes};
ghost use Rattle.input.specs.Input.{ReadInto, EndsWhole};

mod once; // once.rt: one read

pub use once::Over;
use once::{begin, read_more};
use std::io;

// Reads until the input ends or `buf` is full. A read that fails is not the end of the input. Each read goes into all that follows the bytes read before.
// Stays: a rule of the project (no heap). std reads to the end of an input into a `Vec` alone, so the loop is written out.
pub fn read_all<R: io::Read>(from: &mut R, buf: &mut [u8]) -> Over
    ensures into { ReadInto result buf.new }
    ensures bytes { Consumes (R.remaining from.old) (R.remaining from.new) (take result.bytes buf.new) }
    ensures end { EndsWhole result (R.remaining from.new) }
{
    let mut at = begin(buf.len());
    loop {
        match read_more(from, buf, at) {
            Ok(next) => {
                at = next;
            }
            Err(over) => {
                return over;
            }
        }
    }
}
