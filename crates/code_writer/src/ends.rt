// How an array begins, and the byte at which it ends.
ghost use Rattle.std.specs.Prelude.{◌≡◌, ◌++◌, ◌+◌, ◌*◌, ◌^◌, ◌≤◌, ◌<◌, length};
ghost use Rattle.bits.specs.Place.{place_of};
ghost use Rattle.bit_lists.specs.BitList.{nat_bits, byte_len};
ghost use Rattle.raw_bits.specs.Inner.{put_list};

use crate::code::put;
use bits::Place;

// The count and the first value of an array.
#[tactic(auto, using(crate::proofs::Head::head_put))]
pub fn write_head(buf: &mut [u8], from: usize, count: usize, first: u64) -> Place
    requires { from * 8 + 96 ≤ length buf.old * 8 }
    ensures place { result ≡ place_of (from * 8 + 96) }
    ensures buf { buf.new ≡ put_list buf.old (from * 8) (nat_bits 32 count ++ nat_bits 64 first) }
{
    let p = put(buf, Place { byte: from, bit: 0 }, count as u64, 32);
    put(buf, p, first, 64)
}

// An array of no values: its count.
pub fn write_none(buf: &mut [u8], from: usize) -> usize
    requires { from * 8 + 32 ≤ length buf.old * 8 }
    ensures end { result ≡ from + 4 }
    ensures buf { buf.new ≡ put_list buf.old (from * 8) (nat_bits 32 0) }
{
    put(buf, Place { byte: from, bit: 0 }, 0, 32);
    from + 4
}

// The whole bytes before a place, the place's own with them where it has begun.
pub fn rounded(at: Place) -> usize
    requires { (at.byte < 2 ^ 63) × (at.bit < 8) }
    ensures { result ≡ byte_len (at.byte * 8 + at.bit) }
{
    at.byte + usize::from(at.bit.div_ceil(8))
}
