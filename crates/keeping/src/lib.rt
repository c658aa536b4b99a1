// Recording one element of a pair in its array, with halving. All is in `inner`: the public call that offers a pair stands in the crate `offers`.
#![tactic(auto)]

pub mod inner; // inner.rt: one function for either array, for our own crates, as it has a `requires`
