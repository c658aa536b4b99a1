// What our own crates call.
pub use crate::code::{code_of, joined, put, takes_zero};
pub use crate::ends::{rounded, write_head, write_none};
pub use crate::run::{RUN, take_run};
