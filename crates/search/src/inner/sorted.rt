// Keys that do not drop: the first that is not below another, and the last that is not above it.
ghost use Rattle.std.specs.Prelude.{◌≡◌, ◌+◌, ◌≤◌, ◌<◌, leb, not, ◌&&◌, length};
ghost use Rattle.order.specs.Order.{drops};
ghost use Rattle.order.specs.Inner.{NoneBelow};
ghost use Rattle.search.specs.Keys.{first_not_below, last_not_above};
ghost use Rattle.search.specs.Inner.{among, passes, sought, first_above, Bracket};

use order::inner::key::Key;

// Keys that do not drop.
#[derive(Drop)]
pub struct Sorted<'a, K: Key> {
    pub keys: &'a [K],
    ghost in_order: { NoneBelow (drops K.lt K.zero keys.now) (length keys.now) },
}

impl<'a, K: Key> Sorted<'a, K> {
    // Whether the key at i stands before the place that is sought: that of the first key not below x, or with ABOVE of the first above it.
    fn passes<const ABOVE: bool>(&self, i: usize, x: K) -> bool
        requires { i < length self.now.keys.now }
        ensures { result ≡ passes K.lt K.zero ABOVE self.now.keys.now x i }
    {
        let key = self.keys[i];
        if ABOVE { !x.below(key) } else { key.below(x) }
    }

    // Which half of n keys, 4,096 to 8,192 of them, holds the place: the upper 4,096, or the lower ones.
    fn in_half<const ABOVE: bool>(&self, x: K) -> usize
        requires { (4096 ≤ length self.now.keys.now) × (length self.now.keys.now ≤ 8192) }
        ensures { Bracket (passes K.lt K.zero ABOVE self.now.keys.now x) (length self.now.keys.now) result (result + 4096) }
    {
        if self.passes::<ABOVE>(4095, x) {
            self.keys.len() - 4096
        } else {
            0
        }
    }

    // Which half of 2k keys from p on holds the place.
    fn half<const ABOVE: bool>(&self, p: usize, k: usize, x: K) -> usize
        requires { Bracket (passes K.lt K.zero ABOVE self.now.keys.now x) (length self.now.keys.now) p (p + (k + k)) × (0 < k) }
        ensures { Bracket (passes K.lt K.zero ABOVE self.now.keys.now x) (length self.now.keys.now) result (result + k) }
    {
        let next = p + k;
        if self.passes::<ABOVE>(next - 1, x) {
            next
        } else {
            p
        }
    }

    // The place among 4,096 to 8,192 keys, by halves whose sizes are known: each step is a comparison and a choice, with no loop and no branch that could be
    // guessed wrong. That is the size of a table of the default capacity once it has been halved.
    // Stays: the thirteen steps, for the bar of speed of docs/SPEED.md, "Lookups" and "Many questions": at 4,096 pairs and more the search has no loop.
    fn by_known_halves<const ABOVE: bool>(&self, x: K) -> usize
        requires { (4096 ≤ length self.now.keys.now) × (length self.now.keys.now ≤ 8192) }
        ensures { result ≡ sought K.lt K.zero ABOVE self.now.keys.now (length self.now.keys.now) x }
    {
        let p = self.in_half::<ABOVE>(x);
        let p = self.half::<ABOVE>(p, 2048, x);
        let p = self.half::<ABOVE>(p, 1024, x);
        let p = self.half::<ABOVE>(p, 512, x);
        let p = self.half::<ABOVE>(p, 256, x);
        let p = self.half::<ABOVE>(p, 128, x);
        let p = self.half::<ABOVE>(p, 64, x);
        let p = self.half::<ABOVE>(p, 32, x);
        let p = self.half::<ABOVE>(p, 16, x);
        let p = self.half::<ABOVE>(p, 8, x);
        let p = self.half::<ABOVE>(p, 4, x);
        let p = self.half::<ABOVE>(p, 2, x);
        let p = self.half::<ABOVE>(p, 1, x);
        if self.passes::<ABOVE>(p, x) { p + 1 } else { p }
    }

    // Whether there are as many keys as the known halves have.
    fn is_known(&self) -> bool
        ensures { result ≡ leb 4096 (length self.now.keys.now) && leb (length self.now.keys.now) 8192 }
    {
        4096 <= self.keys.len() && self.keys.len() <= 8192
    }

    // The position of the first key that is not below x, or the number of keys.
    pub fn first_not_below(&self, x: K) -> usize
        ensures { result ≡ first_not_below K.lt K.zero self.now.keys.now (length self.now.keys.now) x }
    {
        if self.is_known() {
            return self.by_known_halves::<false>(x);
        }
        self.keys.partition_point(
            |key| -> bool
                ensures { result ≡ K.lt key.now x }
            { key.below(x) },
        )
    }

    // The position of the first key above x, or the number of keys.
    fn first_above(&self, x: K) -> usize
        ensures { result ≡ first_above K.lt K.zero self.now.keys.now (length self.now.keys.now) x }
    {
        if self.is_known() {
            return self.by_known_halves::<true>(x);
        }
        self.keys.partition_point(
            |key| -> bool
                ensures { result ≡ not (K.lt x key.now) }
            { !x.below(*key) },
        )
    }

    // The position of the last key that is not above x: the one before the first above it.
    pub fn last_not_above(&self, x: K) -> Option<usize>
        ensures { result ≡ among (length self.now.keys.now) (last_not_above K.lt K.zero self.now.keys.now (length self.now.keys.now) x) }
    {
        self.first_above(x).checked_sub(1)
    }
}
