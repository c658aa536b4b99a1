// Stored records of lists and images, replayed. For the program `vectors`.
#![tactic(auto)]

pub mod image_records; // image_records.rt: images that are read
pub mod list_records; // list_records.rt: lists that are encoded
