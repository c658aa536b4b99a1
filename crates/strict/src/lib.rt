// Strictness: whether 32 bits hold every difference of deltas of two arrays, so that their image reads back as they are.
// All is in `inner`: the public calls that refuse by 20 stand in the crate `encoder`.
#![tactic(auto)]

mod calm; // calm.rt: small deltas, told without a search
pub mod inner; // inner.rt: what our own crates call
mod search; // search.rt: the first difference that 32 bits do not hold
