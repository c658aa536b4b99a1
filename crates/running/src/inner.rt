// Standard input, standard output and standard error.
ghost use Rattle.std.specs.Prelude.{◌≤◌, List, ℕ, length, take, OnOk};
ghost use Rattle.std.specs.Io.KnownBytes.{Appends, Consumes};
ghost use Rattle.text.specs.Text.{Stands};
ghost use Rattle.input.specs.Input.{EndsWhole};
ghost use Rattle.running.specs.Run.{Ran, Wrote};

use input::Over;
use std::io;

// A program that prints a text for its input, in a buffer of so many places.
pub trait Program<const ROOM: usize> {
    // what is reported where a read fails, and where a write does
    const UNREAD: &'static str;

    const UNWRITTEN: &'static str;

    // the texts that it may print for an input
    ghost prints: { List ℕ → List ℕ → Type 0 };

    // Puts such a text at the start of `text`, and answers its length.
    fn put(input: &[u8], text: &mut [u8; ROOM]) -> usize
        ensures { (t : List ℕ) × prints input.now t × Stands t text.old result text.new };
}

// Prints the first `size` bytes.
// Stays: what may not change. docs/STATEMENTS.md states `print` of a buffer and a size, and `print_past_the_text` is an edit of what it requires of them.
pub fn print<W: io::Write>(to: &mut W, text: &[u8], size: usize) -> io::Result<()>
    requires { size ≤ length text.now }
    ensures { OnOk result (Appends (W.contents to.old) (W.contents to.new) (take size text.now)) }
{
    to.write_all(&text[..size])
}

// Reports on standard error what failed, and why.
pub fn report_failure(rt: &impl Eprint, what: &[u8], why: io::Error) {
    let what = what.escape_ascii();
    eprintln!(rt; "{what}: {why}").ok();
}

// Reads to the end of `from` and prints the program's text to `to`. The error of a read or of the write that fails comes with the answer; where a read
// fails, nothing is printed.
pub fn run_between<P: Program<ROOM>, R: io::Read, W: io::Write, const ROOM: usize>(
    from: &mut R,
    to: &mut W,
    input: &mut [u8],
    text: &mut [u8; ROOM],
) -> (Over, Option<io::Error>)
    ensures ran { Ran P.prints result.0 input.new text.old text.new }
    ensures bytes { Consumes (R.remaining from.old) (R.remaining from.new) (take result.0.bytes input.new) }
    ensures end { EndsWhole result.0 (R.remaining from.new) }
    ensures wrote { Wrote P.prints result.0 input.new result.1 (W.contents to.old) (W.contents to.new) }
{
    let over = input::read_all(from, input);
    if over.failed() {
        return (over, over.failure());
    }
    let size = P::put(&input[..over.bytes()], text);
    (over, print(to, text, size).err())
}

// The same of standard input and standard output. A failure is reported on standard error.
pub fn run<P: Program<ROOM>, const ROOM: usize>(
    rt: &(impl Input + Print + Eprint),
    input: &mut [u8],
    text: &mut [u8; ROOM],
) -> Over
    ensures { Ran P.prints result input.new text.old text.new }
{
    let (over, failure) = run_between::<P, _, _, ROOM>(
        &mut rt.reader(),
        &mut io::writer(rt),
        input,
        text,
    );
    if let Some(why) = failure {
        let what = if over.failed() {
            P::UNREAD
        } else {
            P::UNWRITTEN
        };
        report_failure(rt, what.as_bytes(), why);
    }
    over
}
