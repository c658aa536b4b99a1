// Powers of two and low bits: each asks what its caller has tested. Our other crates call `low_bits`.
// Stays: no plainer. `width ≤ 63` stands in three contracts, but a type of such widths would be made at each call of `low_bits` for that call alone.
ghost use Rattle.std.specs.Prelude.{◌≡◌, ◌%◌, ◌^◌, ◌≤◌};
ghost use Rattle.signed.specs.Inner.{low_bits};

use crate::as_unsigned;

// Two to the width.
pub(crate) fn two_to(width: u8) -> u64
    requires { width ≤ 63 }
    ensures { result ≡ 2 ^ width }
{
    1u64 << width
}

// The low `width` bits of a number, as they stand.
pub(crate) fn low_of(u: u64, width: u8) -> u64
    requires { width ≤ 63 }
    ensures { result ≡ u % 2 ^ width }
{
    u % two_to(width)
}

// The low `width` bits of a signed number.
pub fn low_bits(d: i64, width: u8) -> u64
    requires { width ≤ 63 }
    ensures { result ≡ low_bits width d }
{
    low_of(as_unsigned(d), width)
}
