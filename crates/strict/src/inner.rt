// What our own crates call.
pub use crate::search::first_wide;
