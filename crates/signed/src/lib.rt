// Signed numbers as patterns of bits: two's complement, wrapping sums, sign extension.
#![tactic(auto)]

ghost use Rattle.std.specs.Prelude.{◌≡◌};
ghost use Rattle.signed.specs.Signed.{signed, pattern, sub_s, add_s};
ghost use Rattle.signed.specs.Extend.{told_extend, extend_rule};

pub mod inner; // inner.rt: powers of two and low bits; our other crates call `low_bits`

use crate::inner::{low_of, two_to};

// 23: sign extension at a width outside 1 to 32.
#[derive(Clone, Copy, PartialEq, Eq, Debug)]
pub struct WidthOutside;

// The signed number whose bits `u` are.
pub fn as_signed(u: u64) -> i64
    ensures { result ≡ signed u }
{
    u.cast_signed()
}

// The bits of `i`.
pub fn as_unsigned(i: i64) -> u64
    ensures { result ≡ pattern i }
{
    i.cast_unsigned()
}

// a - b, wrapping at 64 bits.
pub fn wrapping_sub(a: i64, b: i64) -> i64
    ensures { result ≡ sub_s a b }
{
    a.wrapping_sub(b)
}

// a + b, wrapping at 64 bits.
pub fn wrapping_add(a: i64, b: i64) -> i64
    ensures { result ≡ add_s a b }
{
    a.wrapping_add(b)
}

// The low `bits` bits of `val` as they stand, less two to the width where the top one of them is set.
pub fn sign_extend(val: u32, bits: u8) -> Result<i64, WidthOutside>
    ensures { told_extend result ≡ extend_rule val bits }
{
    match bits {
        1..=32 => {
            let low = low_of(u64::from(val), bits);
            let top = two_to(bits - 1);
            let size = two_to(bits);
            // Below 2^(bits - 1) the top bit is not set.
            if low < top {
                Ok(low as i64)
            } else {
                Ok(low as i64 - size as i64)
            }
        }
        _ => Err(WidthOutside),
    }
}
