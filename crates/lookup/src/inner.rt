// What the crates above use on a table that they have checked: the position that answers.
ghost use Rattle.std.specs.Prelude.{◌≡◌};
ghost use Rattle.search.specs.Inner.{among, InOrder};
ghost use Rattle.lookup.specs.Find.{place};

use crate::FindOption;
use order::inner::key::Key;
use search::inner::sorted::Sorted;

// The position that answers, among the first n keys. Inline, so that each question of a list is one call, of the search.
#[inline(always)]
pub fn place<K: Key>(keys: &[K], n: usize, x: K, find_opt: FindOption) -> Option<usize>
    requires { InOrder K.lt K.zero keys.now n }
    ensures { result ≡ among n (place K.lt K.zero find_opt keys.now n x) }
{
    let sorted = Sorted { keys: &keys[..n] };
    match find_opt {
        FindOption::RoundUp => {
            let p = sorted.first_not_below(x);
            if p < n { Some(p) } else { None }
        }
        FindOption::RoundDown => sorted.last_not_above(x),
    }
}
