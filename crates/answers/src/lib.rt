// The answers of the public calls as structs of numbers, for programs in other languages: the refusal's number, and what the
// call gives or the refusal also tells. `call_answers` has the answers with a sheet, `table_answers` those with a table, `why_answers` those with a reason.
#![tactic(auto)]

mod given; // given.rt: what a call gives as an answer, and what is that or a refusal
pub mod inner; // inner.rt: what our own crates call
mod refusals; // refusals.rt: an answer, and a refusal as one

// What a call answers: 0 and the values that it gives, or the number of its refusal and what that also tells, in the order
// of docs/RULES.md, "Refusals". Values that are not told are 0; an array is 0 for the sequences and 1 for the seconds. The place
// that 4 to 8 tell last, a byte of the image and a bit of it, has names of its own; other answers have 0 there.
// Stays: numbers for what is given and for refusals, not a Result: the C interface.
#[repr(C)]
#[derive(Clone, Copy)]
pub struct Answer {
    pub number: u32,
    pub a: u64,
    pub b: u64,
    pub c: u64,
    pub byte: u64,
    pub bit: u64,
}
