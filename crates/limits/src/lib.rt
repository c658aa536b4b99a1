// The limits that the rules set (docs/RULES.md): the domain of seconds, the settings and the room that they need. For our own crates: no public call stands here.
#![tactic(auto)]

pub mod inner;
