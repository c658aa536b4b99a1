// The image of two arrays, into a buffer that holds it. All is in `inner`: the public calls that refuse what has no image stand
// in the crate `encoder`.
#![tactic(auto)]

mod image; // image.rt: the image
pub mod inner; // inner.rt: what our own crates call
