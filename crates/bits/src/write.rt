// A write of the 0 to 64 low bits of a value: the place after them.
ghost use Rattle.bits.specs.Write.{Writes};

use crate::inner::{after, needed, settle};
use crate::{Place, WriteRefusal};
use raw_bits::inner::put_bits;

pub fn write_bits(buf: &mut [u8], at: Place, value: u64, width: u8) -> Result<Place, WriteRefusal>
    ensures { Writes buf.old at value width result buf.new }
{
    let p = settle(buf.len(), at);
    let n = needed(p, width);
    if width > 64 {
        return Err(WriteRefusal::Width);
    }
    if buf.len() < n {
        return Err(WriteRefusal::Short(n));
    }
    put_bits(buf, p.byte, p.bit, value, width);
    Ok(after(p, width))
}
