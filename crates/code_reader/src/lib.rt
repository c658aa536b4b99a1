// One code of an array, read from any bytes, and the refusals of all that reads an image. The public calls that read an
// image stand in the crate `decoder`.
#![tactic(auto)]

mod code; // code.rt: one code
pub mod inner; // inner.rt: what our own crates call
mod missing; // missing.rt: what of a code is missing
mod number; // number.rt: the number of a refusal
mod prefix; // prefix.rt: the ones before a code's difference
mod window; // window.rt: the bits at a place

use bits::Place;
use gorilla::Array;

// Why bytes are refused: 1 to 10 of docs/RULES.md, "Refusals". The place of 4 to 8 is the one at which the missing item begins:
// the count, the first value, or the code with its prefix.
#[derive(Clone, Copy)]
pub enum Refusal {
    // 1: the input is empty
    Empty,
    // 2: the first byte is not 1; the byte
    Version(u8),
    // 3: under 5 bytes
    Header,
    // 4: an array's count is cut off
    CountCut(Array, Place),
    // 10: a count above the shorter lent array
    TooMany(Array),
    // 5: an array's first value is cut off
    FirstCut(Array, Place),
    // 6: the end before the code of an index
    CodeEnd(Array, usize, Place),
    // 7: the end in the prefix of an index's code
    PrefixCut(Array, usize, Place),
    // 8: the end in the difference of an index; its width
    DiffCut(Array, usize, u8, Place),
    // 9: an array's count differs from the header's
    CountDiffers(Array),
}
