// A lookup's answer and its reason as numbers, for programs in other languages. The exported calls stand in `skutlaneb`.
#![tactic(auto)]

mod why; // why.rt: such an answer, of what `why_ts` or `why_seq` tells

use answers::Answer;

// `answer` is as of the lookup alone. `reason` is 0 where it is refused, else 1 exact, 2 rounded up, 3 rounded down, 4 before the first, 5 after the
// last, 6 table empty. `position` is that of the pair that answers, with 1, 2 and 3. `below` and `above` are the neighbouring positions, with 2 and 3,
// each where its mark is 1. What is not there is 0.
// Stays: a number for the reason, marks beside positions: the C interface.
#[repr(C)]
#[derive(Clone, Copy)]
pub struct WhyAnswer {
    pub answer: Answer,
    pub reason: u32,
    pub has_below: u32,
    pub has_above: u32,
    pub position: usize,
    pub below: usize,
    pub above: usize,
}
