// What our own crates call.
pub use crate::image::write_image;
