// Stored records of tables, replayed. For the program `vectors`.
#![tactic(auto)]

pub mod table_records; // table_records.rt: what changes the standing table
pub mod view_records; // view_records.rt: what looks at the standing table
