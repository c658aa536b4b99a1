// What is printed: first a line that starts with `failed: ` where the input is damaged, then what the answers came to.
use crate::stored::Damaged;
use std::io;
use vector_tally::Tally;

// Ends at the first write that fails.
pub fn print(rt: &impl Print, replayed: Result<(), Damaged>, tally: &Tally) -> io::Result<()> {
    if let Err(damaged) = replayed {
        println!(rt; "failed: {damaged}")?;
    }
    vector_tally::print(rt, tally)
}
