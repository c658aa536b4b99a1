// Bits taken from bytes and put into them, at a byte and a bit of it. All is in `inner`: the public calls that read and write bits
// stand in the crates `bits` and `bit_reader`.
#![tactic(auto)]

pub mod inner; // inner.rt: the steps, for our own crates: each that they call has a `requires`
