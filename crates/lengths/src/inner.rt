// What our own crates call.
pub use crate::len::image_bytes;
