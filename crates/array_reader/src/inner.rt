// What our own crates call: an array looked over.
pub use crate::array::{Stretch, scan_array};
