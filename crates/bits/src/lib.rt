// Bits in and out of bytes, most significant bit first.
//
// slatedb's BitWriter pushes one bit at a time into a buffer that grows, and its BitReader takes one
// bit at a time. Here a read or a write moves up to 64 bits at a place of a lent slice, a byte or more
// at a time. No public call has a `requires`: a call that cannot be answered is an `Err` with its refusal,
// whose number specs/ lists (docs/RULES.md, "Refusals"), and a refused call changes nothing.
#![tactic(auto)]

pub mod inner; // inner.rt: the steps, for our own crates: all but `settle` have a `requires`
mod read; // read.rt: a read of bits
mod write; // write.rt: a write of bits

pub use read::read_bits;
pub use write::write_bits;

// A place: a byte, and a bit of it, 0 the most significant. One past the end of a slice, or with a bit
// above 7, counts as the slice's end.
#[derive(Clone, Copy)]
pub struct Place {
    pub byte: usize,
    pub bit: u8,
}

// Why a read is refused.
#[derive(Clone, Copy, PartialEq, Eq, Debug)]
pub enum ReadRefusal {
    // 23: more than 64 bits asked
    Width,
    // 24: fewer bits left than asked, and how many
    Short(u8),
}

// Why a write is refused.
#[derive(Clone, Copy, PartialEq, Eq, Debug)]
pub enum WriteRefusal {
    // 23: more than 64 bits asked
    Width,
    // 21: the buffer is too short, and the bytes that it would have to have
    Short(usize),
}
