// A reader of bits: the caller's bytes, and a place in them. A reader is a value, so a read moves no place: its
// answer tells the place after the bits, and `moved` gives the reader that stands there.
//
// The work is `read_bits`. `read_from` is for a caller that holds no reader.
#![tactic(auto)]

ghost use Rattle.std.specs.Prelude.{◌≡◌};
ghost use Rattle.bits.specs.Read.{told_read, read_rule};
ghost use Rattle.bit_reader.specs.Reader.{place_in};

use bits::{Place, ReadRefusal, read_bits};

#[derive(Clone, Copy)]
pub struct BitReader<'a> {
    pub buf: &'a [u8],
    pub byte_pos: usize,
    pub bit_pos: u8,
}

impl<'a> BitReader<'a> {
    // At the first bit.
    pub fn new(buf: &'a [u8]) -> BitReader<'a>
        ensures { result ≡ record { buf = buf.entry; byte_pos = 0; bit_pos = 0 } }
    {
        BitReader {
            buf,
            byte_pos: 0,
            bit_pos: 0,
        }
    }

    // `width` bits from the reader's place on.
    pub fn read(self, width: u8) -> Result<(u64, Place), ReadRefusal>
        ensures { told_read result ≡ read_rule self.entry.buf.now (place_in self.entry) width }
    {
        read_bits(
            self.buf,
            Place {
                byte: self.byte_pos,
                bit: self.bit_pos,
            },
            width,
        )
    }

    // The reader at another place.
    pub fn moved(self, to: Place) -> BitReader<'a>
        ensures { result ≡ record { buf = self.entry.buf; byte_pos = to.byte; bit_pos = to.bit } }
    {
        BitReader {
            buf: self.buf,
            byte_pos: to.byte,
            bit_pos: to.bit,
        }
    }
}

// A read through a reader, for a caller that holds none.
pub fn read_from(s: &[u8], at: Place, width: u8) -> Result<(u64, Place), ReadRefusal>
    ensures { told_read result ≡ read_rule s.now at width }
{
    BitReader::new(s).moved(at).read(width)
}
