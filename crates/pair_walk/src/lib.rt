// The pairs of two lists, offered in order. All is in `inner`: the public calls that offer such pairs stand in the crate `log_pairs`.
#![tactic(auto)]

pub mod inner; // inner.rt: the walk over the pairs, for our own crates
