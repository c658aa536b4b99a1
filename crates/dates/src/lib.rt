// Dates of RFC 3339 for seconds: a second written as one, and any date-time read as a second.
//
// No public call has a `requires`: what cannot be written or read is refused by a case of the answer, whose number specs/ lists
// (docs/RULES.md, "Refusals").
#![tactic(auto)]

ghost use Rattle.std.specs.Prelude.{◌≡◌};
ghost use Rattle.dates.specs.Refusal.{told_read};
ghost use Rattle.dates.specs.Read.{read_date};
ghost use Rattle.dates.specs.Write.{WritesDate};

mod judging; // judging.rt: the second that a date-time says

use calendar::Inside;
use date_reader::inner::stamp_of;
use date_writer::inner::{DATE_BYTES, put_date};
use judging::judge;
use tracker::Second;

// Why a date is not written or read.
#[derive(Clone, Copy)]
pub enum Refusal {
    // 25: not the grammar of a date-time
    NotTheGrammar,
    // 26: no such date, time of day or offset
    NoSuchTime,
    // 27: outside the years 0001 to 9999, in UTC
    Outside,
    // 21: the output is too short, and the bytes that it would have to have
    Room(usize),
}

// Writes `YYYY-MM-DDTHH:MM:SSZ` at the start of `out`, and no byte past it, and answers how many bytes it wrote: 20.
#[tactic(auto, using(crate::proofs::Writing::writes_outside, crate::proofs::Writing::writes_short, crate::proofs::Writing::writes_there))]
pub fn write_date(second: Second, out: &mut [u8]) -> Result<usize, Refusal>
    ensures { WritesDate second.0 out.old result out.new }
{
    let second = Inside::of(second.0).ok_or(Refusal::Outside)?;
    if out.len() < DATE_BYTES {
        return Err(Refusal::Room(DATE_BYTES));
    }
    Ok(put_date(out, 0, second))
}

// Reads the whole of `bytes` as one date-time. A fraction of a second is left out.
pub fn read_date(bytes: &[u8]) -> Result<Second, Refusal>
    ensures { told_read result ≡ read_date bytes.now }
{
    judge(stamp_of(bytes).ok_or(Refusal::NotTheGrammar)?)
}
