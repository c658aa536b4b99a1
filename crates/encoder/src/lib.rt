// Encoding: the image of two arrays, into a lent buffer.
//
// slatedb's encoder pushes bits into a vector that grows, one at a time. Here codes are gathered into words (crate
// `array_writer`), and a buffer that may be too short has the image's length counted before a byte is written, so that a refused
// call leaves it as it was. No public call has a `requires`: what cannot be encoded is refused by a case of the answer,
// whose number specs/ lists (docs/RULES.md, "Refusals").
#![tactic(auto)]

mod image; // image.rt: the image
mod len; // len.rt: the image's length, counted and at most

use gorilla::Array;
pub use image::{encode, encode_strict};
pub use len::encoded_len;

// Why arrays are not encoded.
#[derive(Clone, Copy)]
pub enum Refusal {
    // 18: the arrays differ in length
    LengthsDiffer,
    // 19: more than 65,536 values in each array
    TooMany,
    // 20, strict: the array and the index of a difference of deltas outside -2^31..2^31-1
    Wide(Array, usize),
    // 21: the buffer is too short, and the bytes that it would have to have
    Room(usize),
}
