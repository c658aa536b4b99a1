// Bytes and numbers as text, for the programs.
#![tactic(auto)]

pub mod inner; // inner.rt: text put into a lent buffer, for our own crates
