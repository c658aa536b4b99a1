// A date as text, for our own crates: no public call stands here.
#![tactic(auto)]

pub mod inner; // inner.rt: the text of a second, by value and put into a lent buffer
