// Whether an array's deltas are all small, so that no difference of them is outside -2^31..2^31-1. A walk with no branch is
// several times cheaper than the search for the first such difference.
ghost use Rattle.std.specs.Prelude.{◌≡◌, ◌^◌, ◌≤◌, ℕ, true, map, unsigned_abs};
ghost use Rattle.told.specs.Told.{gave};
ghost use Rattle.signed.specs.Signed.{sub_s};
ghost use Rattle.gorilla.specs.Wide.{wide_in};

use gorilla::Stored;

// 0 where the delta between two values lies in -2^29..2^29-1.
fn excess(to: i64, from: i64) -> u64
    ensures { result ≡ 0 → unsigned_abs (sub_s to from) ≤ 2 ^ 29 }
{
    let delta = signed::as_unsigned(signed::wrapping_sub(to, from));
    delta.wrapping_add(536870912) >> 30
}

// Not so need not mean that some difference is too large.
pub fn calm<T: Stored>(values: &[T]) -> bool
    ensures { result ≡ true → (a : ℕ) → gave tt ≡ wide_in a (map T.as_z values.now) }
{
    let Some((_, rest)) = values.split_first() else {
        return true;
    };
    let mut over = 0;
    for (i, to) in rest.iter().enumerate() {
        over |= excess(to.to_signed(), values[i].to_signed());
    }
    over == 0
}
