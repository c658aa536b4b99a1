// For our own crates: keys that do not drop, and the searches among them.
pub mod sorted; // sorted.rt: the keys are a type, and the searches its methods
