// The stored form read back: an image of sequences and seconds, from any bytes. No public call has a `requires`: bytes
// that are no image are refused by a number of docs/RULES.md, which specs/ lists, and a refused call changes nothing.
#![tactic(auto)]

mod reader; // reader.rt: the public calls

pub use code_reader::Refusal;
pub use reader::{decode, image_len, rest};
