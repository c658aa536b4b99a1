// Standard input and output of the programs `listing` and `listing_dates`. No contract can say which bytes a terminal or a file gives or takes. What
// can be said is said of the lent buffers, and of the bytes at a reader and a writer that tell theirs.
#![tactic(auto)]

ghost use Rattle.report.specs.Dated.{DatedListing};
ghost use Rattle.running.specs.Run.{Ran};
ghost use Rattle.listing_io.specs.Run.{Listing};

use input::Over;
use report::TEXT_ROOM;
use running::inner::Program;

// One byte more than an image may have, so that too long an input is seen.
pub const INPUT_ROOM: usize = 16385;

// What `listing` prints.
struct Seconds;

impl Program<TEXT_ROOM> for Seconds {
    const UNREAD: &'static str = "listing: standard input";

    const UNWRITTEN: &'static str = "listing: standard output";

    ghost prints = { Listing };

    fn put(input: &[u8], text: &mut [u8; TEXT_ROOM]) -> usize {
        report::listing(input, text)
    }
}

// What `listing_dates` prints.
struct Dates;

impl Program<TEXT_ROOM> for Dates {
    const UNREAD: &'static str = "listing_dates: standard input";

    const UNWRITTEN: &'static str = "listing_dates: standard output";

    ghost prints = { DatedListing };

    fn put(input: &[u8], text: &mut [u8; TEXT_ROOM]) -> usize {
        report::listing_dates(input, text)
    }
}

// Reads standard input to its end and prints its listing.
pub fn run(
    rt: &(impl Input + Print + Eprint),
    image: &mut [u8; INPUT_ROOM],
    text: &mut [u8; TEXT_ROOM],
) -> Over
    ensures { Ran Listing result image.new text.old text.new }
{
    running::inner::run::<Seconds, TEXT_ROOM>(rt, image, text)
}

// Reads standard input to its end and prints its listing with dates.
pub fn run_dates(
    rt: &(impl Input + Print + Eprint),
    image: &mut [u8; INPUT_ROOM],
    text: &mut [u8; TEXT_ROOM],
) -> Over
    ensures { Ran DatedListing result image.new text.old text.new }
{
    running::inner::run::<Dates, TEXT_ROOM>(rt, image, text)
}
