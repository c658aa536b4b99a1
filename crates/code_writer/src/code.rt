// The bits of codes, and bits written at a place.
ghost use Rattle.std.specs.Prelude.{◌≡◌, true, ◌+◌, ◌*◌, ◌^◌, ◌≤◌, ◌<◌, length, pos};
ghost use Rattle.bits.specs.Place.{place_of};
ghost use Rattle.bit_lists.specs.BitList.{nat_bits};
ghost use Rattle.raw_bits.specs.Inner.{put_list};
ghost use Rattle.gorilla.specs.Format.{code_bits};
ghost use Rattle.code_writer.specs.Inner.{held_bits, Fits};

use crate::Held;
use bits::Place;
use bits::inner::{after, put_bits};
use gorilla::inner::row_of;
use signed::inner::low_bits;

// The low `width` bits of a value, and the place after them.
#[tactic(auto, using(bit_lists::proofs::Lists::put_nat))]
pub fn put(buf: &mut [u8], at: Place, value: u64, width: u8) -> Place
    requires { (at.bit < 8) × (width ≤ 64) × (at.byte * 8 + at.bit + width ≤ length buf.old * 8) }
    ensures place { result ≡ place_of (at.byte * 8 + at.bit + width) }
    ensures buf { buf.new ≡ put_list buf.old (at.byte * 8 + at.bit) (nat_bits width value) }
{
    put_bits(buf, at.byte, at.bit, value, width);
    after(at, width)
}

// The bits of `a`, then those of `b`.
pub fn joined(a: Held, b: Held) -> Held
    requires { Fits a × Fits b × (a.width + b.width ≤ 64) × (b.width < 64) }
    ensures { result ≡ record { value = a.value * 2 ^ b.width + b.value; width = a.width + b.width } }
{
    Held {
        value: (a.value << b.width) + b.value,
        width: a.width + b.width,
    }
}

// The bits of a difference's code: the prefix of its row, and the low bits after it.
pub fn code_of(dod: i64) -> Held
    ensures bits { held_bits result ≡ code_bits dod }
    ensures size { Fits result × (result.width ≤ 36) }
{
    let row = row_of(dod);
    let width = row.width;
    let low = low_bits(dod, width);
    joined(
        Held {
            value: row.prefix,
            width: row.prefix_bits,
        },
        Held {
            value: low,
            width: width,
        },
    )
}

// Whether a difference's code is a zero bit that a word of so many bits has room for.
pub fn takes_zero(width: u8, dod: i64) -> bool
    ensures { result ≡ true → (width < 64) × (dod ≡ pos 0) }
{
    dod == 0 && width < 64
}
