// The answers of the calls that give a table, as structs of numbers, for programs in other languages. `call_answers` has
// the others.
#![tactic(auto)]

mod calls; // calls.rt: what a call gives that has a table, and what is that or a refusal

use answers::Answer;
use states::State;
use tallies::Tally;

// What a call answers that gives a state: where it gives none, `state` is one that every call refuses.
#[repr(C)]
#[derive(Clone, Copy)]
pub struct TableAnswer {
    pub answer: Answer,
    pub tally: Tally,
    pub state: State,
}
