// Four steps of the check at a time.
ghost use Rattle.std.specs.Prelude.{◌≡◌, false, ◌+◌, ◌≤◌, ◌<◌, length};
ghost use Rattle.order.specs.Order.{drops};
ghost use Rattle.order.specs.Inner.{NoneBelow};

use crate::inner::key::Key;

// Whether the key at i is below the one before.
pub(crate) fn drops_at<K: Key>(keys: &[K], i: usize) -> bool
    requires { (0 < i) × (i < length keys.now) }
    ensures { result ≡ drops K.lt K.zero keys.now i }
{
    keys[i].below(keys[i - 1])
}

// Whether one of four drops.
fn four<K: Key>(keys: &[K], i: usize) -> bool
    requires { (0 < i) × (i + 3 < length keys.now) }
    ensures { result ≡ false → NoneBelow (λ j. drops K.lt K.zero keys.now (i + j)) 4 }
{
    drops_at(keys, i) || drops_at(keys, i + 1) || drops_at(keys, i + 2) || drops_at(keys, i + 3)
}

// No table keeps more pairs than this.
const MOST: usize = 8192;

// Some index below which none drops, by steps of four.
// Stays: the counted loop by fours, for the bar of speed of docs/SPEED.md, "Lookups": the check takes 7.5 instructions a kept pair. That i + 3 does not wrap is
// why it goes no further than a table does.
pub(crate) fn steady<K: Key>(keys: &[K]) -> usize
    ensures { (1 ≤ result) × NoneBelow (drops K.lt K.zero keys.now) result }
{
    let mut i = 1;
    let n = keys.len().min(MOST);
    while i + 3 < n {
        if four(keys, i) {
            return i;
        }
        i += 4;
    }
    i
}
