// For our own crates.
pub use crate::given::Bits;
pub use crate::refusals::of_table_and;
