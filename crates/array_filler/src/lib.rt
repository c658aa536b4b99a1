// The values of one array of an image, which the crate `array_reader` has looked over, stored into a lent array.
#![tactic(auto)]

mod fill; // fill.rt: the values, one after the other
pub mod inner; // inner.rt: what our own crates call
