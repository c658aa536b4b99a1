// No code: what belongs to the statements of every crate. specs/Told.antt is what a call tells, specs/Over.antt what it leaves in a
// lent array that it fills.
#![tactic(auto)]
