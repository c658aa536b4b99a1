// For our own crates: the first place of an array that breaks a rule.
ghost use Rattle.std.specs.Prelude.{◌≡◌, length, pos};
ghost use Rattle.std.specs.Int.Signed.{lt_z};
ghost use Rattle.order.specs.First.{found};
ghost use Rattle.order.specs.Order.{drops, sec_outside};
ghost use Rattle.order.specs.Inner.{NoneBelow};

use crate::inner::key::Key;
use crate::steps;

pub mod key; // key.rt: what an array is ordered by

// The first key below the one before.
pub fn first_drop<K: Key>(keys: &[K]) -> Option<usize>
    ensures { result ≡ found (drops K.lt K.zero keys.now) (length keys.now) }
{
    for i in steps::steady(keys)..keys.len() {
        if steps::drops_at(keys, i) {
            return Some(i);
        }
    }
    None
}

// The first second out of domain. Since the seconds do not drop, the first and the last tell whether there is one.
pub fn sec_outside(secs: &[i64]) -> Option<usize>
    requires { NoneBelow (drops lt_z (pos 0) secs.now) (length secs.now) }
    ensures { result ≡ found (sec_outside secs.now) (length secs.now) }
{
    if let (Some(first), Some(last)) = (secs.first(), secs.last()) {
        if !limits::inner::out_of_domain(*first) && !limits::inner::out_of_domain(*last) {
            return None;
        }
    }
    first_outside(secs)
}

// The same of seconds in any order.
pub fn first_outside(secs: &[i64]) -> Option<usize>
    ensures { result ≡ found (sec_outside secs.now) (length secs.now) }
{
    secs.iter().position(|s| limits::inner::out_of_domain(*s))
}
