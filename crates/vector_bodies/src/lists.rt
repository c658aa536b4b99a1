// Lists of sequences and of seconds: compared with a body, and made by a rule.
use crate::digest;
use vector_bytes::{Body, Number};

// The most pairs that a rule stands for here.
pub const MOST: usize = 16384;

// The most values that a body lists; longer lists stand as digests.
pub const LISTED: usize = 64;

// Whether a list's values are the next numbers of a body.
fn list_so<T: Number + PartialEq>(body: &mut Body<'_>, list: &[T]) -> bool {
    list.iter().all(|x| *x == body.read())
}

// Whether pairs are those that a body goes on with, by their values or their digests.
pub fn values_so(mut body: Body<'_>, seqs: &[u64], secs: &[i64]) -> bool {
    if seqs.len() > LISTED {
        digest::pairs_so(body, seqs, secs)
    } else {
        list_so(&mut body, seqs) && list_so(&mut body, secs)
    }
}

// A rule of FORMAT.md, at its present pair.
#[derive(Clone, Copy)]
pub struct Rule {
    pub count: usize,
    pub x: u64,
    pub seq: u64,
    pub seq_step: u64,
    pub seq_mask: u64,
    pub sec: i64,
    pub sec_step: u64,
    pub sec_mask: u64,
}

impl Rule {
    // Goes on to the next pair.
    fn step(&mut self) {
        self.x = digest::mix(self.x);
        let seq_step = self.seq_step.wrapping_add(self.x & self.seq_mask);
        let sec_step = self.sec_step.wrapping_add((self.x >> 32) & self.sec_mask);
        self.seq = self.seq.wrapping_add(seq_step);
        self.sec = self.sec.wrapping_add(sec_step.cast_signed());
    }
}

// The rule that a body goes on with.
pub fn rule_of(body: &mut Body<'_>) -> Rule {
    let count: u32 = body.read();
    Rule {
        count: count as usize,
        x: body.read(),
        seq: body.read(),
        seq_step: body.read(),
        seq_mask: body.read(),
        sec: body.read(),
        sec_step: body.read(),
        sec_mask: body.read(),
    }
}

// The pairs that a rule stands for.
pub fn make(mut rule: Rule, seqs: &mut [u64], secs: &mut [i64]) {
    for (seq, sec) in seqs.iter_mut().zip(secs).take(rule.count) {
        *seq = rule.seq;
        *sec = rule.sec;
        rule.step();
    }
}
