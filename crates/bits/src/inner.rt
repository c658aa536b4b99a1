// The steps below the public calls, for our own crates. All but `settle` ask what their caller has tested.
//
// Stays: no plainer. `bit < 8` stands in five contracts, but a type of settled places would be a second `Place`: those who go on
// from a place that a read gave (array_reader, array_filler, code_writer) would make one of it for one call of `after`.
ghost use Rattle.std.specs.Prelude.{◌≡◌, ◌+◌, ◌-◌, ◌*◌, ◌/◌, ◌%◌, ◌^◌, ◌≤◌, ◌<◌};
ghost use Rattle.bits.specs.Place.{place_of};
ghost use Rattle.bits.specs.Inner.{Settled};

use crate::Place;
pub use raw_bits::inner::{field, put_bits, word_at};

// The place itself, or the end of a slice of `len` bytes.
#[tactic(auto, unfolding(crate::specs::Place::pos_of))]
pub fn settle(len: usize, at: Place) -> Place
    ensures { Settled len at result }
{
    if at.byte < len && at.bit < 8 {
        at
    } else {
        Place { byte: len, bit: 0 }
    }
}

// The whole bytes that `width` bits from a place on reach into.
pub fn needed(at: Place, width: u8) -> usize
    requires { (at.byte < 2 ^ 63) × (at.bit < 8) }
    ensures { result ≡ (at.byte * 8 + at.bit + width + 7) / 8 }
{
    at.byte + (at.bit as usize + width as usize + 7) / 8
}

// The bits from a place on that are left in `len` bytes, where they are fewer than 64.
pub fn left_at(len: usize, at: Place) -> u8
    requires { (at.bit < 8) × (at.byte * 8 + at.bit ≤ len * 8) × (len * 8 < at.byte * 8 + at.bit + 64) }
    ensures { result ≡ len * 8 - (at.byte * 8 + at.bit) }
{
    ((len - at.byte) * 8) as u8 - at.bit
}

// The place from which on `left` bits are left in `len` bytes.
pub fn place_left(len: usize, left: u8) -> Place
    requires { left ≤ len * 8 }
    ensures { (result.byte ≡ (len * 8 - left) / 8) × (result.bit ≡ (len * 8 - left) % 8) }
{
    Place {
        byte: len - (left as usize + 7) / 8,
        bit: (8 - left % 8) % 8,
    }
}

// The place `width` bits on.
pub fn after(at: Place, width: u8) -> Place
    requires { (at.byte < 2 ^ 63) × (at.bit < 8) × (width ≤ 64) }
    ensures { result ≡ place_of (at.byte * 8 + at.bit + width) }
{
    Place {
        byte: at.byte + ((at.bit + width) / 8) as usize,
        bit: (at.bit + width) % 8,
    }
}
