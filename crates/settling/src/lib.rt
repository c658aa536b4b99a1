// Pairs that were read become a table in the lent arrays. For our own crates: no public call stands here.
#![tactic(auto)]

pub mod inner;
