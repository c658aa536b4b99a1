// Dates of RFC 3339, written and read.
ghost use Rattle.std.specs.Prelude.{◌≡◌};
ghost use Rattle.dates.specs.Read.{read_date};
ghost use Rattle.answers.specs.Answer.{of_signed};
ghost use Rattle.skutlaneb.specs.Calls.{SkutWritesDate};

use answers::Answer;
use tracker::Second;

// Gives the bytes written, which are twenty.
#[unsafe(no_mangle)]
pub extern "C" fn skut_write_date(sec: i64, out: &mut [u8]) -> Answer
    ensures { SkutWritesDate sec out.old result out.new }
{
    Answer::from(dates::write_date(Second(sec), out))
}

// Gives the second, by its 64 bits.
#[unsafe(no_mangle)]
pub extern "C" fn skut_read_date(bytes: &[u8]) -> Answer
    ensures { result ≡ of_signed (read_date bytes.now) }
{
    Answer::from(dates::read_date(bytes))
}
