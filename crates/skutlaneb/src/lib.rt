// The public calls for programs in other languages: a static library of plain functions, built by `rt lib`.
//
// Numbers, slices and structs of numbers cross; a slice is a pointer and a length. No call has a `requires`: any numbers
// are taken, and what they do not make is refused by a number of docs/RULES.md. No call allocates. The two restores take 128 KB
// of stack for arrays of their own; of the others `skut_write_date` keeps an array there, a date's
// twenty bytes, and the sheets those of sixteen places.
// Stays: calls in twos, by sequence and by second, each with both arrays: the C interface.
#![tactic(auto)]

pub mod bit_calls; // bit_calls.rt: bits in and out, sign extension
pub mod date_calls; // date_calls.rt: dates
pub mod image_calls; // image_calls.rt: images of arrays
pub mod layout; // layout.rt: which layout the structs have
pub mod question_calls; // question_calls.rt: many questions to one table
pub mod store_calls; // store_calls.rt: a table saved and restored
pub mod table_calls; // table_calls.rt: a table: settings, the check, offers, lookups
pub mod why_calls; // why_calls.rt: why a lookup answers as it does
