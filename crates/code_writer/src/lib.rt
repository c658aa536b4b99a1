// The pieces of an array: codes as bits, runs of codes that are a zero bit each, its count and its first value. All is in
// `inner`: the crate `array_writer` makes an array of them.
#![tactic(auto)]

mod code; // code.rt: codes as bits, and bits written
mod ends; // ends.rt: how an array begins, and the byte at which it ends
pub mod inner; // inner.rt: what our own crates call
mod run; // run.rt: runs of zero codes

// Bits that are held until there is a word of them: the low `width` bits of `value`, the first the most significant.
#[derive(Clone, Copy)]
pub struct Held {
    pub value: u64,
    pub width: u8,
}
