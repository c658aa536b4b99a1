// The reason in a table that is checked, and the position that answers under it.
ghost use Rattle.std.specs.Prelude.{◌≡◌, ◌<◌, length};
ghost use Rattle.search.specs.Keys.{greater};
ghost use Rattle.search.specs.Inner.{InOrder};
ghost use Rattle.explaining.specs.Reason as rules;
ghost use Rattle.explaining.specs.Inner as own;

use crate::Reason;
use lookup::FindOption;
use lookup::inner::place;
use order::inner::key::Key;
use search::inner::sorted::Sorted;

// Whether the key at p is above x.
fn above<K: Key>(keys: &[K], p: usize, x: K) -> bool
    requires { p < length keys.now }
    ensures { result ≡ greater K.lt K.zero keys.now x p }
{
    x.below(keys[p])
}

// The reason among the first n keys of a good table.
pub fn reason<K: Key>(keys: &[K], n: usize, x: K, find_opt: FindOption) -> Reason
    requires { InOrder K.lt K.zero keys.now n }
    ensures { result ≡ rules.reason_of K.lt K.zero find_opt keys.now n x }
{
    if n == 0 {
        return Reason::Empty;
    }
    let sorted = Sorted { keys: &keys[..n] };
    let p = sorted.first_not_below(x);
    if p == n {
        return beside(p, n, find_opt);
    }
    if above(keys, p, x) {
        return beside(p, n, find_opt);
    }
    let at = place(keys, n, x, find_opt);
    Reason::Exact(at.unwrap())
}

// The position before p, where there is one.
fn before(p: usize) -> Option<usize>
    ensures { result ≡ rules.before p }
{
    if p == 0 { None } else { Some(p - 1) }
}

// p, where it is a position below n.
fn below(p: usize, n: usize) -> Option<usize>
    ensures { result ≡ rules.below p n }
{
    if p < n { Some(p) } else { None }
}

// Where no key equals, and p is the position of the first greater one, or n.
pub(crate) fn beside(p: usize, n: usize, find_opt: FindOption) -> Reason
    ensures { result ≡ rules.beside find_opt p n }
{
    match find_opt {
        FindOption::RoundUp => {
            if p == n {
                return Reason::AfterLast;
            }
            let lower = before(p);
            Reason::RoundedUp(lower, p)
        }
        FindOption::RoundDown => {
            if p == 0 {
                return Reason::BeforeFirst;
            }
            let upper = below(p, n);
            Reason::RoundedDown(p - 1, upper)
        }
    }
}

// The position that answers under a reason, where one does.
pub fn answering(reason: Reason) -> Option<usize>
    ensures { result ≡ own.answering reason }
{
    match reason {
        Reason::Exact(p) => Some(p),
        Reason::RoundedUp(_, above) => Some(above),
        Reason::RoundedDown(lower, _) => Some(lower),
        Reason::BeforeFirst | Reason::AfterLast | Reason::Empty => None,
    }
}
