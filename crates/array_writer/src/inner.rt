// What our own crates call.
pub use crate::array::write_array;
