// One read of standard input. Only here are a `Reading` and an `Over` made, since their fields are this module's own: any other code has
// them from `begin`, and from reads into all of the buffer that follows the bytes read before.
ghost use Rattle.std.specs.Prelude.{◌≡◌};
ghost use Rattle.input.specs.Input.{failed};
ghost use Rattle.input.specs.Inner.{ReadingOf, Counted, after_read, Reads};

use std::io;

// Standard input that is being read into a buffer.
#[derive(Clone, Copy)]
pub struct Reading {
    // how many bytes of it stand at the start of the buffer
    bytes: usize,
    // how many places the buffer has
    room: usize,
}

// Standard input after its last read.
#[derive(Clone, Copy)]
pub struct Over {
    bytes: usize,
    room: usize,
    // the error of the last read; none where it gave no byte, at the end of the input or of the buffer
    failure: Option<io::Error>,
}

impl Over {
    // How many bytes were read.
    pub fn bytes(self) -> usize
        ensures { result ≡ self.bytes }
    {
        self.bytes
    }

    // The error of the last read, where it failed.
    pub fn failure(self) -> Option<io::Error>
        ensures { result ≡ self.failure }
    {
        self.failure
    }

    // Whether the last read failed.
    pub fn failed(self) -> bool
        ensures { result ≡ failed self }
    {
        self.failure.is_some()
    }
}

// Before the first read.
pub fn begin(room: usize) -> Reading
    ensures { result ≡ record { bytes = 0; room = room } }
{
    Reading { bytes: 0, room }
}

// What a read that answered `got` came to: the reading that goes on, or an `Over`. That is the `Err` also at the end of the input, as no read follows it.
fn after(at: Reading, got: io::Result<usize>) -> Result<Reading, Over>
    requires { Counted at.bytes got }
    ensures { result ≡ after_read at got }
{
    let Reading { bytes, room } = at;
    match got {
        Err(why) => Err(Over {
            bytes,
            room,
            failure: Some(why),
        }),
        Ok(0) => Err(Over {
            bytes,
            room,
            failure: None,
        }),
        Ok(more) => Ok(Reading {
            bytes: bytes + more,
            room,
        }),
    }
}

// One read, into the buffer from the bytes on that were read before it.
pub fn read_more<R: io::Read>(from: &mut R, buf: &mut [u8], at: Reading) -> Result<Reading, Over>
    requires { ReadingOf at buf.old }
    ensures { Reads (record { left = R.remaining from.old; buffer = buf.old }) at
        (record { left = R.remaining from.new; buffer = buf.new }) result }
{
    let done = at.bytes;
    let got = from.read(&mut buf[done..]);
    after(at, got)
}
