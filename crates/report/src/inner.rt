// For our own crates.
pub use crate::lines::put_refused;
