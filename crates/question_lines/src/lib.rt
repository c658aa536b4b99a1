// The line of a question, a lookup written as text, for our own crates: no public call stands here.
#![tactic(auto)]

pub mod inner; // inner.rt: the whole line
mod steps; // steps.rt: the parts of a line

use lookup::FindOption;
use tracker::{Second, Seq};

#[derive(Clone, Copy)]
pub enum Question {
    BySeq(Seq, FindOption),
    ByTime(Second, FindOption),
}
