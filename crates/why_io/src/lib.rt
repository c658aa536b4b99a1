// Standard input and output of the program `why`. No contract can say which bytes a terminal or a file gives or takes. What can be said is said of the
// lent buffers, and of the bytes at a reader and a writer that tell theirs.
#![tactic(auto)]

ghost use Rattle.running.specs.Run.{Ran};
ghost use Rattle.why_io.specs.Run.{Explaining};

use input::Over;
use running::inner::Program;
use why_text::TEXT_ROOM;

// One byte more than an input may have, so that too long a one is seen.
pub const INPUT_ROOM: usize = 65537;

// What `why` prints.
struct Why;

impl Program<TEXT_ROOM> for Why {
    const UNREAD: &'static str = "why: standard input";

    const UNWRITTEN: &'static str = "why: standard output";

    ghost prints = { Explaining };

    fn put(input: &[u8], text: &mut [u8; TEXT_ROOM]) -> usize {
        why_text::why(input, text)
    }
}

// Reads standard input to its end and prints the reason and the answer.
pub fn run(
    rt: &(impl Input + Print + Eprint),
    asked: &mut [u8; INPUT_ROOM],
    text: &mut [u8; TEXT_ROOM],
) -> Over
    ensures { Ran Explaining result asked.new text.old text.new }
{
    running::inner::run::<Why, TEXT_ROOM>(rt, asked, text)
}
