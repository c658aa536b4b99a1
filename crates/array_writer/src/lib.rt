// One array, its codes gathered into words, into a lent buffer. All is in `inner`: the public calls that write an image stand in
// the crate `encoder`.
#![tactic(auto)]

mod array; // array.rt: one array
pub mod inner; // inner.rt: what our own crates call
