// What the programs for users share: what a run leaves (specs/Run.antt), and how a text is printed.
#![tactic(auto)]

pub mod inner; // inner.rt: what our own crates call
