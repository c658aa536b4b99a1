// Whether an offer is skipped, and why. All is in `inner`: the public call that offers a pair stands in the crate `offers`.
#![tactic(auto)]

pub mod inner; // inner.rt: the two tests, for our own crates
