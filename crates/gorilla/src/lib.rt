// The stored form: slatedb's Gorilla encoding of one array, and the image of two. specs/ has its definitions, as it is
// written and as it is read, and proofs/ the round trip. The code here is what the encoder and the decoder share.
#![tactic(auto)]

pub mod inner; // inner.rt: rows of codes, widths, and the step from value to value
mod stored; // stored.rt: what an array holds, as the signed numbers that are stored

pub use stored::Stored;

// The two arrays of an image.
#[derive(Clone, Copy)]
pub enum Array {
    Sequences,
    Seconds,
}

// A row of the table of codes: a prefix of so many bits, and the low bits of the difference after it.
#[derive(Clone, Copy)]
pub struct Row {
    pub prefix: u64,
    pub prefix_bits: u8,
    pub width: u8,
}

// A value and the delta that led to it.
#[derive(Clone, Copy)]
pub struct Track {
    pub prev: i64,
    pub delta: i64,
}

// The difference of deltas at a value, and where that leads.
#[derive(Clone, Copy)]
pub struct Coded {
    pub dod: i64,
    pub next: Track,
}
