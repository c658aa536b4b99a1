// A read of 0 to 64 bits: the bits as a number, and the place after them.
ghost use Rattle.std.specs.Prelude.{◌≡◌};
ghost use Rattle.bits.specs.Read.{told_read, read_rule};

use crate::inner::{after, left_at, needed, settle};
use crate::{Place, ReadRefusal};
use raw_bits::inner::take_bits;

pub fn read_bits(s: &[u8], at: Place, width: u8) -> Result<(u64, Place), ReadRefusal>
    ensures { told_read result ≡ read_rule s.now at width }
{
    let p = settle(s.len(), at);
    let n = needed(p, width);
    if width > 64 {
        return Err(ReadRefusal::Width);
    }
    if s.len() < n {
        return Err(ReadRefusal::Short(left_at(s.len(), p)));
    }
    let v = take_bits(s, p.byte, p.bit, width);
    Ok((v, after(p, width)))
}
