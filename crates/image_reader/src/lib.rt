// The header and both arrays of an image, looked over in any bytes with no value kept. All of it is in `inner`: the public
// calls that read an image stand in the crate `decoder`.
#![tactic(auto)]

mod image; // image.rt: an image looked over
pub mod inner; // inner.rt: what our own crates call
