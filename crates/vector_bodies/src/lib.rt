// What the records of stored answers hold, and how the port's answers are compared with them. compare/FORMAT.md says what a record
// has. For the program `vectors` and the crates beside it.
#![tactic(auto)]

pub mod digest; // digest.rt: digests of long lists and images
pub mod lists; // lists.rt: lists of sequences and seconds
