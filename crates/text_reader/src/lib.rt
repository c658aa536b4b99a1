// Digits and words at the front of a text, for our own crates: no public call stands here.
#![tactic(auto)]

pub mod inner; // inner.rt: what stands at the front
