// The text that the programs `listing` and `listing_dates` print for the bytes that they read: the pairs of an image, or the number by which
// they are refused.
#![tactic(auto)]

ghost use Rattle.text.specs.Text.{Stands};
ghost use Rattle.report.specs.Listing.{listing_of};
ghost use Rattle.report.specs.Dated.{ListsDates};
ghost use Rattle.report.specs.Inner.{listing_by};

pub mod inner; // inner.rt: what our own crates call
mod lines; // lines.rt: the lines of a listing
mod third; // third.rt: what stands in the third field

use lines::{put_pairs, put_refused};
use third::{Dates, Seconds, Third};

// The most bytes that are read as an image.
pub const MOST_INPUT: usize = 16384;

// The most pairs that are listed.
pub const MOST_PAIRS: usize = 1024;

// Room for every text: a line of 64 bytes at most for each pair, and as much for the first line.
pub const TEXT_ROOM: usize = 65600;

// Both listings: they differ only in the third field, and in 27.
// Stays: the C interface. The list reader, which C calls, fills two lent arrays, so the pairs come as two lists.
fn put_listing<T: Third>(input: &[u8], out: &mut [u8; TEXT_ROOM]) -> usize
    ensures { Stands (listing_by T.text T.some_lacks input.now) out.old result out.new }
{
    if input.len() > MOST_INPUT {
        return put_refused(out, 22);
    }
    let mut seqs = [0u64; MOST_PAIRS];
    let mut secs = [0i64; MOST_PAIRS];
    match decoder::decode(input, &mut seqs, &mut secs) {
        Ok(count) => put_pairs::<T>(out, &seqs[..count], &secs[..count]),
        Err(refusal) => put_refused(out, refusal.number()),
    }
}

// Puts the text for the bytes of `input` at the start of `out`, and answers its length.
pub fn listing(input: &[u8], out: &mut [u8; TEXT_ROOM]) -> usize
    ensures { Stands (listing_of input.now) out.old result out.new }
{
    put_listing::<Seconds>(input, out)
}

// The same with each second as a date, or 27 where a second has none.
pub fn listing_dates(input: &[u8], out: &mut [u8; TEXT_ROOM]) -> usize
    ensures { ListsDates input.now out.old result out.new }
{
    put_listing::<Dates>(input, out)
}
