// What our own crates call: the bits at a place, the zero codes among them, and one code.
pub use crate::code::{Code, read_code};
pub use crate::missing::{Cut, Missing, refusal_of};
pub use crate::window::{Window, window_at, zeros};
