// Replays answers of the real Rust on the port and compares every one. compare/FORMAT.md says what the input has.
#![tactic(auto)]

mod records; // records.rt: one record of any kind
mod stored; // stored.rt: the input, one record after the other
mod verdict; // verdict.rt: what is printed

use running::inner::report_failure;
use vector_lists::first;
use vector_tally::Tally;

// Stays: there is no heap, so the input and the table's pairs stand in arrays of the most that they may have.
fn main(rt: HostRuntime) {
    let mut bytes = [0u8; stored::ROOM];
    let mut seqs = [0u64; 8192];
    let mut secs = [0i64; 8192];
    run(&rt, &mut bytes, &mut seqs, &mut secs);
}

// Replays standard input and prints what came of it. A read that fails is reported on standard error, and nothing is printed; a write that
// fails is reported there too.
fn run(
    rt: &(impl Input + Print + Eprint),
    bytes: &mut [u8; stored::ROOM],
    seqs: &mut [u64],
    secs: &mut [i64],
) {
    let mut tally = Tally::new();
    let over = input::read_all(&mut rt.reader(), bytes);
    if let Some(why) = over.failure() {
        report_failure(rt, b"vectors: standard input", why);
        return;
    }
    let replayed = stored::replay_all(first(bytes, over.bytes()), seqs, secs, &mut tally);
    if let Err(why) = verdict::print(rt, replayed, &tally) {
        report_failure(rt, b"vectors: standard output", why);
    }
}
