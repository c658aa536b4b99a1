// The order of a table's sequences and of its seconds, and their domain. For our own crates: no public call stands here.
#![tactic(auto)]

pub mod inner; // inner.rt: the first place of an array that breaks a rule
mod steps; // steps.rt: four at a time
