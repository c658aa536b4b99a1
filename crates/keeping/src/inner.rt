// Recording one element of a pair in its array. The array may have no place for one more than the capacity, so
// the elements at even positions first move down to lower places, and the new one, where it stays, goes to its last place at once.
ghost use Rattle.std.specs.Prelude.{◌≡◌, ◌≤◌, ◌<◌, length};
ghost use Rattle.told.specs.Over.{over};
ghost use Rattle.keeping.specs.Keep.{appended, thinned};
ghost use Rattle.keeping.specs.Inner.{count_with};

// The positions that stay, counted from 0: the first, then every second one.
const FIRST_KEPT: usize = 0;

const STEP: usize = 2;

// Gives how many elements stay, of n and one more. A pair's sequence and its second each go to an array of their own, and both
// arrays keep as many.
// Stays: no plainer: n beside the slice, as the new element may go to place n, past the slice of the first n.
pub fn keep<T: Copy>(items: &mut [T], n: usize, capacity: usize, item: T) -> usize
    requires { (n ≤ length items.old) × (capacity ≤ length items.old) × (0 < length items.old) }
    ensures count { result ≡ count_with capacity n }
    ensures items { items.new ≡ over (thinned capacity (appended n items.old item)) items.old }
{
    if n < capacity {
        items[n] = item;
        return n + 1;
    }
    let half = n / STEP;
    let kept = n.div_ceil(STEP);
    for j in 0..kept {
        items[j] = items[FIRST_KEPT + STEP * j];
    }
    if half == kept { // n is even: the new one stays
        items[kept] = item;
    }
    half + 1
}
