// One array of an image, looked over with no value kept.
//
// Stays: no plainer. A struct of the bytes and of which array it is would be made for one call of each function, and each contract
// then says `self.s.now` and `self.array`.
ghost use Rattle.std.specs.Prelude.{◌≡◌, ◌≤◌, length};
ghost use Rattle.bits.specs.Place.{pos_of};
ghost use Rattle.bit_lists.specs.BitList.{byte_len};
ghost use Rattle.array_reader.specs.Inner.{ReadsValues, ReadsArray};

use crate::scan::scan;
use bits::inner::place_left;
use bits::{Place, ReadRefusal};
use code_reader::Refusal;
use gorilla::Array;

// An array that can be filled in: how many values, the first of them, the place of the codes of the others, and the byte after
// the array.
#[derive(Clone, Copy)]
pub struct Stretch {
    pub count: usize,
    pub first: i64,
    pub at: Place,
    pub end: usize,
}

// The byte after a place, or the place's own byte where it is a whole one.
pub fn end_of(s: &[u8], at: Place) -> usize
    ensures { result ≡ byte_len (pos_of (length s.now) at) }
{
    let p = bits::inner::settle(s.len(), at);
    if p.bit == 0 { p.byte } else { p.byte + 1 }
}

// The values of an array of a count that is not 0.
fn scan_values(s: &[u8], at: Place, count: usize, array: Array) -> Result<Stretch, Refusal>
    requires { 1 ≤ count }
    ensures { ReadsValues s.now at count array result }
{
    match bit_reader::read_from(s, at, 64) {
        Ok((v, q)) => {
            let e = scan(s, q, count, array)?;
            Ok(Stretch {
                count,
                first: signed::as_signed(v),
                at: q,
                end: end_of(s, e),
            })
        }
        Err(ReadRefusal::Short(left)) => {
            Err(Refusal::FirstCut(array, place_left(s.len(), left)))
        }
        // never met: 64 bits are not too many
        Err(ReadRefusal::Width) => Err(Refusal::FirstCut(array, at)),
    }
}

// An array from a byte on, of at most max values.
pub fn scan_array(s: &[u8], from: usize, max: usize, array: Array) -> Result<Stretch, Refusal>
    ensures { ReadsArray s.now from max array result }
{
    let at = Place { byte: from, bit: 0 };
    match bit_reader::read_from(s, at, 32) {
        Ok((v, p)) => {
            let count = v as usize;
            if max < count {
                return Err(Refusal::TooMany(array));
            }
            if count == 0 {
                return Ok(Stretch {
                    count: 0,
                    first: 0,
                    at: p,
                    end: end_of(s, p),
                });
            }
            scan_values(s, p, count, array)
        }
        Err(ReadRefusal::Short(left)) => {
            Err(Refusal::CountCut(array, place_left(s.len(), left)))
        }
        // never met: 32 bits are not too many
        Err(ReadRefusal::Width) => Err(Refusal::CountCut(array, at)),
    }
}
