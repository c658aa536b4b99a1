// The length of an image, counted before a byte of it is written. All is in `inner`: the public calls that tell it stand in the
// crate `encoder`.
#![tactic(auto)]

pub mod inner; // inner.rt: what our own crates call
mod len; // len.rt: bits and bytes counted
