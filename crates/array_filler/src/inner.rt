// What our own crates call: an array's values, stored.
pub use crate::fill::fill;
