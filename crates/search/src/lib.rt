// Binary searches in an array that does not drop. All is in `inner`: the public lookups stand in the crate `lookup`.
#![tactic(auto)]

pub mod inner; // inner.rt: keys that do not drop, and the searches among them, for our own crates
