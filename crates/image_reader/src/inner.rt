// What our own crates call: the parts of an image, looked over.
pub use crate::image::{Parts, scan_image};
